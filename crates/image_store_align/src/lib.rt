// How much of a log a NewEpoch keeps, from the bytes of the store and of the message (paper 01, 'The log'; shard.rs, adopt). Internal: the
// message was read, and the store has been tested.
#![tactic(auto)]

ghost use Rattle.std.specs.Prelude.{◌≤◌};
ghost use Rattle.log_store.specs.Align.{AgreesAt, KeptOf};
ghost use Rattle.log_domain.specs.Parts.{table_in, TableThere};
ghost use Rattle.image_store.specs.Image.{words};
ghost use Rattle.image_store_check.specs.Test.{Stands, offsets_in};

use image_store_check::columns::OFFSETS;
use wire_read::Part;
use wire_read::parts::end_at;

// Whether an entry of this epoch and offset stands within `end`, under the epoch of the first pair with end at or above it.
fn agrees(message: &[u8], table: Part, end: u64, epoch: u64, offset: u64) -> bool
    requires { TableThere message.now table }
    ensures { AgreesAt end (table_in message.now table) epoch offset result }
{
    if end < offset {
        return false;
    }
    let n = table.len;
    for i in 0..n {
        let pair = end_at(message, table, i);
        if offset <= pair.end.0 {
            return pair.epoch.0 == epoch;
        }
    }
    false
}

// How many leading entries of the log at `base` agree with the table of a message.
pub fn kept(
    stores: &[u8],
    base: usize,
    count: usize,
    message: &[u8],
    table: Part,
    end: u64,
) -> usize
    requires { (count ≤ 1024) × Stands stores.now base × TableThere message.now table }
    ensures { KeptOf (words 8 1024 stores.now base) (offsets_in stores.now base) count end (table_in message.now table) result }
{
    let offsets = base + OFFSETS;
    for i in 0..count {
        let epoch = num::get8(stores, base + 8 * i);
        let offset = num::get8(stores, offsets + 8 * i);
        if !agrees(message, table, end, epoch, offset) {
            return i;
        }
    }
    count
}

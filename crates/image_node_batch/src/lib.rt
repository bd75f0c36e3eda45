// A batch of a message stored in a lent store, where it stands (paper 01, 'Who is turned down', CopyShard; node.rs, on_copy). Internal: the
// message was read, its vectors lie in the domain, and the store has been tested.
#![tactic(auto)]

ghost use Rattle.std.specs.Prelude.{◌≡◌, true, map, ◌*◌, ◌≤◌, ◌<◌, length};
ghost use Rattle.spec.specs.Lists.{every};
ghost use Rattle.spec.specs.Node.Wire.{entry_in_domain, stored_entry};
ghost use Rattle.log_domain.specs.Parts.{entries_in, EntriesThere};
ghost use Rattle.image_store.specs.Image.{well_formed_image};
ghost use Rattle.image_node_batch.specs.Batch.{HoldsAll, BatchStored};

use crate::append::append_all;
use image_layout::stores::STORE;
use image_store_check::columns::KEYS;
use wire_put::put::put_bytes;
use wire_read::Part;

mod append;
pub mod room;

// How many entries the log and how many rows the table has.
#[derive(Drop)]
pub struct Stock {
    pub count: usize,
    pub stored: usize,
}

// The bytes of one column of a table, and of both.
const COLUMN: usize = 8192;

const TABLE: usize = 16384;

// Each entry that is the next, under its own epoch; there is room for them. A row that a Delete takes out again leaves no trace: the free
// places of the table are put back as they were.
pub fn store_batch(
    out: &mut [u8],
    slot: usize,
    count: usize,
    stored: usize,
    s: &[u8],
    p: Part,
) -> Stock
    requires { (slot < 8) × (1392640 ≤ length out.old) × (well_formed_image out.old (slot * 174080) count stored ≡ true)
        × EntriesThere s.now p × (every entry_in_domain (entries_in s.now p) ≡ true) × HoldsAll (entries_in s.now p) count }
    ensures { BatchStored out.old out.new slot count stored (map stored_entry (entries_in s.now p)) result }
{
    let table = slot * STORE + KEYS;
    let mut kept = [0u8; TABLE];
    let end = table + TABLE;
    put_bytes(&mut kept, 0, &out[table..end]);
    let t = append_all(out, slot, count, stored, s, p);
    let rows = t.stored;
    let used = 8 * rows;
    put_bytes(out, table + used, &kept[used..COLUMN]);
    let also = COLUMN + used;
    put_bytes(out, table + also, &kept[also..TABLE]);
    t
}

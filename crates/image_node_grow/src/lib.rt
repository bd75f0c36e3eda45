// What a call leaves of a held shard in place: its store one entry longer and the header that counts it, or the header alone, each row of it
// in the one form. Internal: header and store have been tested.
#![tactic(auto)]

ghost use Rattle.std.specs.Prelude.{◌≡◌, true, ◌+◌, ◌≤◌, ◌<◌, length};
ghost use Rattle.spec.specs.Node.Wire.{op_in_domain};
ghost use Rattle.log_arrive.specs.Parts.{op_in, OpThere};
ghost use Rattle.image_header.specs.Image.{node_at};
ghost use Rattle.image_header.specs.Becomes.{HeaderWrites};
ghost use Rattle.image_header_check.specs.Rows.{Counts};
ghost use Rattle.image_header_counts.specs.Counts.{with_counts};
ghost use Rattle.image_node.specs.Lent.{begin_of};
ghost use Rattle.image_node.specs.State.{held_row_image};
ghost use Rattle.image_node_grow.specs.Grow.{row_in, Grows};

use image_header_counts::put_counts;
use image_layout::header::{EPOCH, LAST, ROW, ROWS, SHARDS, SLOT, STORED};
use image_layout::stores::STORE;
use image_store_append::ops::append_op;
use wire_read::OpPart;

// An entry behind the others of the shard at place `at`, whose log has room, under the shard's own epoch.
pub fn grow(header: &mut [u8], stores: &mut [u8], at: usize, message: &[u8], op: OpPart)
    requires { Counts header.old (node_at header.old).count × (at < (node_at header.old).count) × ((row_in header.old at).slot < 8)
        × ((row_in header.old at).held.last < 1024)
        × (begin_of (row_in header.old at) + 174080 ≤ length stores.old) × (held_row_image stores.old (row_in header.old at) ≡ true)
        × OpThere message.now op × (op_in_domain (op_in message.now op) ≡ true) }
    ensures { Grows header.old header.new stores.old stores.new at message.now op }
{
    let row = ROWS + ROW * at;
    let count = num::get8(header, SHARDS) as usize;
    let slot = num::get8(header, row + SLOT) as usize;
    let last = num::get8(header, row + LAST) as usize;
    let stored = num::get8(header, row + STORED) as usize;
    let epoch = num::get8(header, row + EPOCH);
    let rows = append_op(stores, slot * STORE, last, stored, epoch, message, op);
    put_counts(header, count, at, (last + 1) as u64, rows as u64);
}

// The header with the numbers that it has, of which the shard at place `at` is one.
pub fn tidy(header: &mut [u8], at: usize)
    requires { Counts header.old (node_at header.old).count × (at < (node_at header.old).count) }
    ensures { HeaderWrites header.old header.new
        (with_counts (node_at header.old) at (row_in header.old at).held.last (row_in header.old at).stored) }
{
    let row = ROWS + ROW * at;
    let count = num::get8(header, SHARDS) as usize;
    let last = num::get8(header, row + LAST);
    let stored = num::get8(header, row + STORED);
    put_counts(header, count, at, last, stored);
}

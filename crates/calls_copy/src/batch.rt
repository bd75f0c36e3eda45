// A batch stored at a held shard: its store, and the header that counts it. Internal: header and store have been tested.
ghost use Rattle.std.specs.Prelude.{◌≡◌, true, map, ◌≤◌, ◌<◌, length};
ghost use Rattle.spec.specs.Lists.{every};
ghost use Rattle.spec.specs.Node.Wire.{entry_in_domain, stored_entry};
ghost use Rattle.log_domain.specs.Parts.{entries_in, EntriesThere};
ghost use Rattle.image_header.specs.Image.{node_at};
ghost use Rattle.image_header_check.specs.Rows.{Counts};
ghost use Rattle.image_node.specs.State.{held_row_image};
ghost use Rattle.image_node_grow.specs.Grow.{row_in};
ghost use Rattle.image_node_batch.specs.Batch.{HoldsAll};
ghost use Rattle.calls_copy.specs.Asked.{GrowsAll};

use image_header_counts::put_counts;
use image_layout::header::{LAST, ROW, ROWS, SHARDS, SLOT, STORED};
use image_node_batch::store_batch;
use wire_read::Part;

// The batch, for which there is room, at the shard at place `at`. Answers how many entries its log has then.
pub fn grow_all(header: &mut [u8], stores: &mut [u8], at: usize, message: &[u8], p: Part) -> u64
    requires { Counts header.old (node_at header.old).count × (at < (node_at header.old).count) × ((row_in header.old at).slot < 8)
        × (1392640 ≤ length stores.old) × (held_row_image stores.old (row_in header.old at) ≡ true)
        × EntriesThere message.now p × (every entry_in_domain (entries_in message.now p) ≡ true)
        × HoldsAll (entries_in message.now p) (row_in header.old at).held.last }
    ensures { GrowsAll header.old header.new stores.old stores.new at
        (map stored_entry (entries_in message.now p)) result }
{
    let row = ROWS + ROW * at;
    let count = num::get8(header, SHARDS) as usize;
    let slot = num::get8(header, row + SLOT) as usize;
    let last = num::get8(header, row + LAST) as usize;
    let stored = num::get8(header, row + STORED) as usize;
    let t = store_batch(stores, slot, last, stored, message, p);
    let entries = t.count as u64;
    let rows = t.stored as u64;
    put_counts(header, count, at, entries, rows);
    entries
}

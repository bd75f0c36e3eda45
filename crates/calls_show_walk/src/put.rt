// Internal: the rows held after, put into the header.
ghost use Rattle.std.specs.Prelude.{◌≡◌, true, ◌*◌, ◌≤◌, length};
ghost use Rattle.spec.specs.Lists.{every};
ghost use Rattle.node_show_slots.specs.Slots.{open_fits};
ghost use Rattle.calls_show_walk.specs.Slots.{rows_in, HeaderTakes};

use crate::slots::give_slots;
use image_header_set::back::put_back;
use image_layout::header::{KNOWN, ROWS, SHARDS};
use wire_put::put::put_bytes;

// Under the map's version, each shard in a slot of its own, in the canonical form.
pub fn put_rows(header: &mut [u8], rows: &[u8], count: usize, version: u64)
    requires { (10288 ≤ length header.old) × (count ≤ 8) × (1280 * count ≤ length rows.now) × (every open_fits (rows_in rows.now count) ≡ true) }
    ensures { HeaderTakes header.old header.new rows.now count version }
{
    num::put8(header, KNOWN, version);
    num::put8(header, SHARDS, count as u64);
    let end = 1280 * count;
    put_bytes(header, ROWS, &rows[..end]);
    give_slots(header, count);
    put_back(header, count);
}

// A row opened in a header, those from there on moved up, and the row of a shard that begins.
ghost use Rattle.std.specs.Prelude.{◌≡◌, ◌+◌, ◌≤◌, ◌<◌, length};
ghost use Rattle.image_header_row.specs.Rows.{held_row_at};
ghost use Rattle.image_header_set.specs.Row.{RowBecomes};
ghost use Rattle.image_header_begin.specs.Begun.{Opened, begun_set};

use image_header_set::set::set_aligned;
use image_layout::header::{HOLDERS, METRIC, ROW, ROWS, SHARDS, SLOT};
use image_move::move_up;
use image_parts::codes::metric_code;
use image_parts::keys::put_key;
use map_tables::ShardKey;
use spec::Metric;

const WORDS: usize = 160;

// A row more, which is free at place `at`.
pub fn open_row(out: &mut [u8], at: usize, count: usize)
    requires { (10288 ≤ length out.old) × (at ≤ count) × (count < 8) }
    ensures { Opened out.old out.new at count }
{
    num::put8(out, SHARDS, (count + 1) as u64);
    let row = ROWS + ROW * at;
    move_up(out, row, row + ROW, WORDS * (count - at));
}

// A shard with no entries, of which no replica and no peer is known. What the row held of them is past those in use.
pub fn set_begun(out: &mut [u8], row: usize, key: ShardKey, slot: u64, epoch: u64, metric: Metric)
    requires { row + 1280 ≤ length out.old }
    ensures { RowBecomes out.old out.new row (begun_set (held_row_at out.old row) key slot epoch metric) }
{
    put_key(out, row, key);
    num::put8(out, row + SLOT, slot);
    num::put8(out, row + HOLDERS, 0);
    num::put4(out, row + METRIC, metric_code(metric));
    set_aligned(out, row, epoch, 0, 0);
}

// Internal: the row of a held shard as a row of the map leaves it.
ghost use Rattle.image_header_row.specs.Rows.{held_row_at};
ghost use Rattle.calls_show_row.specs.Peers.{AtMost32};
ghost use Rattle.calls_show_row.specs.Row.{Ready, Few, Needs, Shows, Refreshes};

use crate::leave::leave;
use crate::news::{copy_row, count_new};
use crate::set::set_holders;
use image_layout::header::{COUNT, PEERS, ROW};
use map_tables::ShardRow;

// The replicas that the map lists, and nothing else: also of a shard whose collection the map lacks.
pub fn refresh_row(out: &mut [u8], at: usize, row: ShardRow)
    requires { Ready out.old at row }
    ensures { Refreshes out.old out.new at row }
{
    let list = row.replicas;
    set_holders(out, at, list);
}

// How many workers start for the shard, or none where a 33rd would be needed. The row is made in a buffer of its own: nothing is written
// before it is known that no shard has too many.
pub fn workers_of(s: &[u8], at: usize, me: u64, row: ShardRow) -> Option<usize>
    requires { Ready s.now at row }
    ensures { AtMost32 result (Needs (held_row_at s.now at) me row) }
{
    let mut after = [0u8; ROW];
    copy_row(&mut after, s, at);
    let was = leave(&mut after, 0, me, row)?;
    let n = num::get8(&after, COUNT) as usize;
    Some(count_new(s, at + PEERS, was, &after, PEERS, n))
}

// The shard as the map leaves it.
pub fn show_row(out: &mut [u8], at: usize, me: u64, row: ShardRow)
    requires { Ready out.old at row × Few (held_row_at out.old at) me row }
    ensures { Shows out.old out.new at me row }
{
    let _was = leave(out, at, me, row);
}

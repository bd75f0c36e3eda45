// Internal: the fields of a held shard's row that a map sets, stored where they stand.
ghost use Rattle.std.specs.Prelude.{◌+◌, ◌≤◌, length};
ghost use Rattle.image_header_row.specs.Rows.{held_row_at};
ghost use Rattle.image_header_set.specs.Row.{RowBecomes, count_set};
ghost use Rattle.calls_show_row.specs.Set.{holders_set, record_set};

use image_header_row::held::put_role;
use image_header_set::set::set_own;
use image_layout::header::{COUNT, EPOCH, HOLDERS, LAST, REPLICAS, ROLE};
use image_parts::replicas::put_replicas;
use map_tables::Holders;
use spec::{Epoch, Offset, Role};

// The replicas that the map lists.
pub fn set_holders(out: &mut [u8], at: usize, list: Holders)
    requires { at + 1280 ≤ length out.old }
    ensures { RowBecomes out.old out.new at (holders_set (held_row_at out.old at) list) }
{
    let copies = list.items;
    num::put8(out, at + HOLDERS, list.count as u64);
    put_replicas(out, at + REPLICAS, copies);
}

// How many peers.
pub fn set_count(out: &mut [u8], at: usize, count: usize)
    requires { at + 1280 ≤ length out.old }
    ensures { RowBecomes out.old out.new at (count_set (held_row_at out.old at) count) }
{
    num::put8(out, at + COUNT, count as u64);
}

// A new record: the primary of that epoch, which begins at the end of the log.
pub fn set_record(out: &mut [u8], at: usize, epoch: Epoch, own: bool)
    requires { at + 1280 ≤ length out.old }
    ensures { RowBecomes out.old out.new at (record_set (held_row_at out.old at) epoch own) }
{
    let end = Offset(num::get8(out, at + LAST));
    let role = Role::Primary {
        epoch: epoch,
        end: end,
    };
    num::put8(out, at + EPOCH, epoch.0);
    put_role(out, at + ROLE, role);
    set_own(out, at, own);
}

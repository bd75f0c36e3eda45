// One field of a row, stored where it stands.
ghost use Rattle.std.specs.Prelude.{◌+◌, ◌≤◌, ◌<◌, length};
ghost use Rattle.node_header.specs.View.{kept_as};
ghost use Rattle.image_header_row.specs.Rows.{held_row_at};
ghost use Rattle.image_header_set.specs.Row.{RowBecomes, peer_set, own_set, stepped_down, aligned_set};

use image_header_row::held::put_role;
use image_header_row::peers::put_peer;
use image_layout::header::{COUNT, EPOCH, LAST, OWN, PEERS, ROLE, STORED};
use image_parts::codes::flag_code;
use spec::{Peer, Role};

// The row of the i-th peer.
pub fn set_peer(out: &mut [u8], row: usize, i: usize, p: Peer)
    requires { (row + 1280 ≤ length out.old) × (i < 32) }
    ensures { RowBecomes out.old out.new row (peer_set (held_row_at out.old row) i p) }
{
    put_peer(out, row + PEERS + 32 * i, p);
}

// Whether the node is in its own ack set.
pub fn set_own(out: &mut [u8], row: usize, own: bool)
    requires { row + 1280 ≤ length out.old }
    ensures { RowBecomes out.old out.new row (own_set (held_row_at out.old row) own) }
{
    num::put4(out, row + OWN, flag_code(own));
}

// The primary role left, with all that the record tracked.
pub fn step_down(out: &mut [u8], row: usize)
    requires { row + 1280 ≤ length out.old }
    ensures { RowBecomes out.old out.new row (kept_as (held_row_at out.old row) (stepped_down (held_row_at out.old row).held)) }
{
    put_role(out, row + ROLE, Role::Backup);
    num::put8(out, row + COUNT, 0);
    set_own(out, row, false);
}

// The log aligned with a new epoch's primary: the epoch, how many entries and rows are left, and the role left.
pub fn set_aligned(out: &mut [u8], row: usize, epoch: u64, last: u64, stored: u64)
    requires { row + 1280 ≤ length out.old }
    ensures { RowBecomes out.old out.new row (aligned_set (held_row_at out.old row) epoch last stored) }
{
    num::put8(out, row + STORED, stored);
    num::put8(out, row + EPOCH, epoch);
    num::put8(out, row + LAST, last);
    step_down(out, row);
}

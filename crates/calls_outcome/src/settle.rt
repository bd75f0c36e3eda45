// The outcome at the row of a shard.
ghost use Rattle.std.specs.Prelude.{◌+◌, ◌≤◌, length};
ghost use Rattle.spec.specs.Layout.Format.{number_at};
ghost use Rattle.calls_outcome.specs.Settled.{OutcomesRow};

use image_header_row::held::role_at;
use image_header_row::peers::peer_at;
use image_header_set::peers::place_of;
use image_header_set::set::{set_own, set_peer};
use image_layout::header::PEERS;
use image_parts::codes::flag_of;
use node_outcomes::{own_after, row_settled};
use node_shard::rows::leads;

// Internal: nothing without a primary at that epoch; the peer's row, if it has one, and whether the node stays in its own ack set.
pub fn settle_row(out: &mut [u8], row: usize, me: u64, epoch: u64, peer: u64, left: bool)
    requires { (row + 1280 ≤ length out.old) × (number_at 8 out.old (row + 88) ≤ 32) }
    ensures { OutcomesRow out.old out.new row me epoch peer left }
{
    let role = role_at(out, row + 108);
    if !leads(role, epoch) {
        return;
    }
    let n = num::get8(out, row + 88) as usize;
    let i = place_of(out, row + PEERS, n, peer);
    let own = own_after(flag_of(num::get4(out, row + 100)), me, peer, left);
    if n <= i {
        set_own(out, row, own);
        return;
    }
    let p = peer_at(out, row + PEERS + 32 * i);
    let q = row_settled(p, left);
    set_peer(out, row, i, q);
    set_own(out, row, own);
}

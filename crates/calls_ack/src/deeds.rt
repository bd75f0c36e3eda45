// What a reply brings about at the row of a shard.
ghost use Rattle.std.specs.Prelude.{◌≡◌, false, ◌+◌, ◌≤◌, ◌<◌, length};
ghost use Rattle.spec.specs.Node.Ack as model;
ghost use Rattle.node_shard.specs.Acks.{reply_of, does_deed};
ghost use Rattle.node_header.specs.View.{kept_as};
ghost use Rattle.image_header_row.specs.Rows.{held_row_at};
ghost use Rattle.image_header_set.specs.Row.{RowBecomes};
ghost use Rattle.calls_header.specs.Acks.{ack_number};
ghost use Rattle.calls_ack.specs.Deeds.{deed_held, deed_answer};
ghost use Rattle.calls_ack.specs.Numbers.{told_of};

use crate::told::Told;
use image_header_row::peers::peer_at;
use image_header_set::set::{set_peer, step_down};
use image_layout::header::PEERS;
use node_acks::{joining, row_acked};
use node_shard::{Deed, Reply, Sent};
use spec::Peer;

// Internal: what a reply to that step asks for.
pub fn asks(s: Sent, r: Reply, epoch: u64) -> Deed
    requires { model.bad_reply (reply_of r) ≡ false }
    ensures { result ≡ does_deed s r epoch }
{
    match r {
        Reply::Stale(e) => {
            if epoch < e {
                return Deed::StepDown;
            }
            match s {
                Sent::Align => Deed::Nothing,
                Sent::Replicate => Deed::Unalign,
                Sent::Copy => Deed::Unalign,
            }
        }
        Reply::Adopted(t) => match s {
            Sent::Align => Deed::Record {
                through: t,
                aligned: true,
            },
            Sent::Replicate => Deed::Nothing,
            Sent::Copy => Deed::Nothing,
        },
        Reply::Stored(t) => match s {
            Sent::Align => Deed::Nothing,
            Sent::Replicate => Deed::Record {
                through: t,
                aligned: false,
            },
            Sent::Copy => Deed::Record {
                through: t,
                aligned: false,
            },
        },
        Reply::Gap(n) => match s {
            Sent::Align => Deed::Nothing,
            Sent::Replicate => Deed::Record {
                through: n - 1,
                aligned: false,
            },
            Sent::Copy => Deed::Nothing,
        },
    }
}

// Internal: a peer that is to be aligned anew.
fn unaligned(p: Peer) -> Peer
    ensures { result ≡ model.unaligned p }
{
    let mut q = p;
    q.aligned = false;
    q
}

// Internal: the deed done to the row, of whose peers the i-th replied, and what is told of it.
pub fn set_deed(out: &mut [u8], row: usize, i: usize, d: Deed) -> Told
    requires { (row + 1280 ≤ length out.old) × (i < 32) }
    ensures { (told_of result ≡ ack_number (deed_answer d i (held_row_at out.old row).held))
        × RowBecomes out.old out.new row (kept_as (held_row_at out.old row) (deed_held d i (held_row_at out.old row).held)) }
{
    let place = row + PEERS + 32 * i;
    match d {
        Deed::Nothing => Told::Noted,
        Deed::StepDown => {
            step_down(out, row);
            Told::Noted
        }
        Deed::Unalign => {
            let p = peer_at(out, place);
            set_peer(out, row, i, unaligned(p));
            Told::Noted
        }
        Deed::Record { through, aligned } => {
            let last = num::get8(out, row + 72);
            let p = peer_at(out, place);
            let q = row_acked(p, last, through, aligned);
            set_peer(out, row, i, q);
            if joining(p, last, through, aligned) {
                return Told::Expand;
            }
            Told::Noted
        }
    }
}

// What a peer's reply makes of one row (paper 01, 'Who is turned down', Ack; node.rs: record_ack, unalign, step_down), and laws of the reply at a
// held shard.
#![tactic(auto)]

ghost use Rattle.std.specs.Prelude.{◌≡◌, false};
ghost use Rattle.spec.specs.Node.Ack.{bad_reply, acked_through, joins, ack_row};
ghost use Rattle.node_shard.specs.Acks.{reply_of};

use node_shard::{LAST_TIME, Reply};
use spec::{Offset, Peer};

// Internal: a reply that no peer gives (21).
pub fn bad(r: Reply) -> bool
    ensures { result ≡ bad_reply (reply_of r) }
{
    match r {
        Reply::Stored(t) => LAST_TIME < t,
        Reply::Gap(n) => n == 0 || LAST_TIME < n,
        Reply::Stale(_) => false,
        Reply::Adopted(t) => LAST_TIME < t,
    }
}

// Internal: alignment is cut to the log's end; any other ack only raises.
#[tactic(auto, unfolding(spec::specs::Node::Ack::acked_through))]
pub fn acked_through(p: Peer, last: u64, through: u64, aligned: bool) -> u64
    ensures { result ≡ acked_through last through aligned p }
{
    if aligned {
        through.min(last)
    } else {
        p.acked.0.max(through)
    }
}

// Internal: whether the peer joins the ack set, with an Expand to propose.
pub fn joining(p: Peer, last: u64, through: u64, aligned: bool) -> bool
    ensures { result ≡ joins last through aligned p }
{
    let n = acked_through(p, last, through, aligned);
    last <= n && !p.member && !p.proposing
}

// Internal: a row after an ack.
pub fn row_acked(p: Peer, last: u64, through: u64, aligned: bool) -> Peer
    ensures { result ≡ ack_row last through aligned p }
{
    let n = acked_through(p, last, through, aligned);
    let join = joining(p, last, through, aligned);
    let up = last <= n;
    let mut q = p;
    q.acked = Offset(n);
    q.aligned = p.aligned || aligned;
    q.behind = p.behind && !up;
    q.proposing = p.proposing || join;
    q.member = p.member || join;
    q
}

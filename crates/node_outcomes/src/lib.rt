// Outcome of a proposal (node.rs, after `propose`, and done_proposing).
#![tactic(auto)]

ghost use Rattle.std.specs.Prelude.{◌≡◌, not, eqb};
ghost use Rattle.spec.specs.Lists.{◌and◌};
ghost use Rattle.spec.specs.Node.Ack.{settled_row};

use spec::Peer;

// Internal: a row after the outcome; `left` says that the peer leaves the ack set.
pub fn row_settled(p: Peer, left: bool) -> Peer
    ensures { result ≡ settled_row left p }
{
    let mut q = p;
    q.proposing = false;
    q.behind = p.behind && !left;
    q.member = p.member && !left;
    q
}

// Internal: whether the node itself stays in its ack set.
pub fn own_after(own: bool, me: u64, peer: u64, left: bool) -> bool
    ensures { result ≡ (own and not (left and eqb peer me)) }
{
    own && !(left && peer == me)
}

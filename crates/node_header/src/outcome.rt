// Outcome of a proposal (paper 01, 'Who is turned down'; node.rs, after `propose`, and done_proposing), on the whole header.
ghost use Rattle.std.specs.Prelude.{◌≡◌};
ghost use Rattle.spec.specs.Node.Ack.{leaves};
ghost use Rattle.node_header.specs.Answers.{proposal_of};

use crate::Proposal;

// Internal: only an applied Shrink takes the peer out of the ack set.
pub fn takes_out(what: Proposal, applied: bool) -> bool
    ensures { result ≡ leaves (proposal_of what) applied }
{
    match what {
        Proposal::Shrink => applied,
        Proposal::Grow => false,
    }
}

// What one replica is asked (paper 01, 'The log', 'Who is turned down'; shard.rs, vector, len, is_empty, epoch_ends, entries_from), over its
// lent store: eight columns, and how many entries and rows of them are used. None of these calls asks anything of its caller, and none
// changes the store: a malformed one is refused (24). The calls that change a replica, its search and its ids are crate log_calls'.
#![tactic(auto)]

ghost use Rattle.std.specs.Prelude.{◌≡◌};
ghost use Rattle.spec.specs.Refusals.{number_of};
ghost use Rattle.node_log_reads.specs.Refused.{refusal_of};

pub mod ends;
pub mod entries;
pub mod vectors;

// Why a call is refused: a malformed store, or an output that is short of the answer.
#[derive(Clone, Copy, PartialEq, Eq, Debug)]
pub enum Refusal {
    Malformed,
    NoRoom,
}

impl Refusal {
    // Its number: 24 or 23.
    pub fn number(self) -> u8
        ensures { result ≡ number_of (refusal_of self) }
    {
        match self {
            Refusal::Malformed => 24,
            Refusal::NoRoom => 23,
        }
    }
}

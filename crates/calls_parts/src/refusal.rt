// Why a call over a node's bytes is refused, and the number that hosts see. Internal.
ghost use Rattle.std.specs.Prelude.{◌≡◌};
ghost use Rattle.calls_parts.specs.Refusals.{code_of, number_of};

#[derive(Clone, Copy, Debug, PartialEq, Eq)]
pub enum Refusal {
    // The node does not hold the shard.
    UnknownShard,
    // The node does not lead the shard under that epoch; its own stands beside the answer.
    NotPrimary,
    NoLease,
    TooFewInSync,
    // The message, the name or a number among the operands is none.
    Undecodable,
    OutsideDomain,
    // A log is full, or what was lent for the answer is too short.
    NoRoom,
    // A state that is not lent whole, or is not well formed.
    Malformed,
    LastEpoch,
    NoWorker,
}

// The number that hosts see.
impl From<Refusal> for u32 {
    ghost from_gives = { λ why n. n ≡ code_of why };

    fn from(why: Refusal) -> u32 {
        match why {
            Refusal::UnknownShard => 17,
            Refusal::NotPrimary => 18,
            Refusal::NoLease => 19,
            Refusal::TooFewInSync => 20,
            Refusal::Undecodable => 21,
            Refusal::OutsideDomain => 22,
            Refusal::NoRoom => 23,
            Refusal::Malformed => 24,
            Refusal::LastEpoch => 25,
            Refusal::NoWorker => 26,
        }
    }
}

// 0, or the number of the refusal.
pub fn number(said: Result<(), Refusal>) -> u32
    ensures { result ≡ number_of said }
{
    match said {
        Ok(()) => 0,
        Err(why) => u32::from(why),
    }
}

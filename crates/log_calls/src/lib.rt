// The calls of one replica (paper 01, 'The log', 'Nearest objects', 'Who is turned down'; shard.rs, ShardReplica), over its lent
// store: eight columns, and how many entries and rows of them are used. None of them asks anything of its caller: a message that
// does not decode, a vector outside the domain and a malformed store are refused, in this order.
#![tactic(auto)]

ghost use Rattle.std.specs.Prelude.{◌≡◌};

use spec::{Epoch, Offset};

pub mod adopts;
pub mod appends;
pub mod arrives;
pub mod fits;
pub mod reads;
pub mod searches;

// What a call answers: shard.rs's own answers with their values, or the number of a refusal.
#[derive(Clone, Copy)]
pub enum Answer {
    Appended(Offset),
    Stored(Offset),
    Gap(Offset),
    StaleEpoch(Epoch),
    Adopted(Offset),
    Refused(u8),
}

// The answer, the replica's epoch then, and how many entries and rows its store has then.
#[derive(Clone, Copy)]
pub struct Done {
    pub answer: Answer,
    pub epoch: Epoch,
    pub count: usize,
    pub stored: usize,
}

// A call that is turned down: the epoch and both counts as they were.
fn unchanged(answer: Answer, own: Epoch, count: usize, stored: usize) -> Done
    ensures { result ≡ record { answer = answer; epoch = own; count = count; stored = stored } }
{
    Done {
        answer: answer,
        epoch: own,
        count: count,
        stored: stored,
    }
}

// What a node decides before it touches a log (paper 01, 'The node'; node.rs: heartbeats, write, search, on_new_epoch, replicate_to): the
// lease, whether Write and Search are admitted, the worker's step, whether a NewEpoch is taken. Of one held shard.
#![tactic(auto)]

pub mod admission;
pub mod lease;

// Whether a client's call goes on: 18 with the own epoch, 19, 20, 23 otherwise.
#[derive(Clone, Copy)]
pub enum Admit {
    Yes,
    NotPrimary(u64),
    NoLease,
    TooFew,
    NoRoom,
}

// The worker's step; Send names its first offset and how many entries.
#[derive(Clone, Copy)]
pub enum Step {
    Stop,
    Wait,
    Align,
    Send { first: u64, count: u64 },
}

// Whether a NewEpoch is taken, or the own epoch that turns it down.
#[derive(Clone, Copy)]
pub enum Epochs {
    Taken,
    Stale(u64),
}

// One held shard of a data node (paper 01, 'The node'; node.rs), as the type in which contracts speak of it, and functions on its rows. What
// the calls do to a row is in crates of its own: `node_acks`, `node_waits`, `node_outcomes`, `node_show_shard`, and `node_admit`,
// `node_log_write` and `node_log_backup`. What a held shard is read as stands in specs/View.antt; what a call does, in `spec`'s Node.
#![tactic(auto)]

use spec::{DataNodeId, Epoch, Metric, Peer, Replica, Role};

pub mod rows;

// The largest reading of a clock, and the largest offset that a peer may say: 2^62.
pub const LAST_TIME: u64 = 4611686018427387904;

// One held shard without its key and its log. `last` is the log's length, `holders` and `count` say how many replicas and rows are in use;
// what lies past them is free.
#[derive(Clone, Copy)]
pub struct Held {
    pub epoch: Epoch,
    pub metric: Metric,
    pub last: u64,
    pub role: Role,
    pub own: bool,
    pub replicas: [Replica; 8],
    pub holders: usize,
    pub peers: [Peer; 32],
    pub count: usize,
}

// A list of nodes; what lies past `count` is free.
#[derive(Clone, Copy)]
pub struct Nodes {
    pub items: [DataNodeId; 32],
    pub count: usize,
}

// Waiting for acks: 18 with the own epoch, or another refusal's number.
#[derive(Clone, Copy)]
pub enum WaitAnswer {
    Done,
    Waiting,
    NotPrimary(u64),
    Refused(u8),
}

// The answer, the peers to propose a Shrink for, by rising node, and the shard after.
#[derive(Clone, Copy)]
pub struct Waited {
    pub answer: WaitAnswer,
    pub shrink: Nodes,
    pub held: Held,
}

// The outcome of a proposal is taken note of, or refused by a number.
#[derive(Clone, Copy)]
pub enum OutcomeAnswer {
    Noted,
    Refused(u8),
}

#[derive(Clone, Copy)]
pub struct Settled {
    pub answer: OutcomeAnswer,
    pub held: Held,
}

// The step that a reply answers.
#[derive(Clone, Copy)]
pub enum Sent {
    Align,
    Replicate,
    Copy,
}

// A reply, 30 to 33.
#[derive(Clone, Copy)]
pub enum Reply {
    Stored(u64),
    Gap(u64),
    Stale(u64),
    Adopted(u64),
}

// What a reply brings about.
#[derive(Clone, Copy)]
pub enum Deed {
    Nothing,
    StepDown,
    Unalign,
    Record { through: u64, aligned: bool },
}

// Nothing to do, an Expand to propose for the peer, or a refusal's number.
#[derive(Clone, Copy)]
pub enum AckAnswer {
    Noted,
    Expand,
    Refused(u8),
}

#[derive(Clone, Copy)]
pub struct Acked {
    pub answer: AckAnswer,
    pub held: Held,
}

// The node's header (paper 01, 'The node'; node.rs, State), as the type in which contracts speak of it: what every call of a node is lent. The logs
// and vectors of its shards are in stores of their own. No code makes one: the calls work in the bytes that are read as it.
#![tactic(auto)]

use map_tables::ShardKey;
use node_admit::Step;
use node_shard::{AckAnswer, Held, Nodes, OutcomeAnswer, WaitAnswer};
use spec::DataNodeId;

pub mod outcome;

// A held shard: which of the eight stores is its own, and how many rows that store's table of vectors has. The slot stays with the shard
// when keys shift places.
#[derive(Clone, Copy)]
pub struct HeldRow {
    pub key: ShardKey,
    pub slot: usize,
    pub stored: usize,
    pub held: Held,
}

// The source's State, with the node's id. The first `count` shards are in use, by rising key; the rest is free.
#[derive(Clone, Copy)]
pub struct Node {
    pub id: DataNodeId,
    pub incarnation: u64,
    pub expiry: Option<u64>,
    pub version: u64,
    pub held: [HeldRow; 8],
    pub count: usize,
}

// A grant is taken note of, or refused by a number.
#[derive(Clone, Copy)]
pub enum GrantAnswer {
    Granted,
    Refused(u8),
}

#[derive(Clone, Copy)]
pub struct NodeGranted {
    pub answer: GrantAnswer,
    pub node: Node,
}

// The answer, the peers to propose a Shrink for, by rising node, and the node after.
#[derive(Clone, Copy)]
pub struct NodeWaited {
    pub answer: WaitAnswer,
    pub shrink: Nodes,
    pub node: Node,
}

#[derive(Clone, Copy)]
pub struct NodeAcked {
    pub answer: AckAnswer,
    pub node: Node,
}

// What a node proposes.
#[derive(Clone, Copy)]
pub enum Proposal {
    Shrink,
    Grow,
}

#[derive(Clone, Copy)]
pub struct NodeSettled {
    pub answer: OutcomeAnswer,
    pub node: Node,
}

// A worker's step, or a refusal's number.
#[derive(Clone, Copy)]
pub enum StepAnswer {
    Stepped(Step),
    Refused(u8),
}

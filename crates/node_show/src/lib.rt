// A map shown to a node (paper 01, 'The node', 'Map shown'; node.rs, on_map): what it promises, and the laws of a walk over the map's shards. What
// its rows say, and the slots after it, are crates `node_show_row` and `node_show_slots`; the walk is crate `calls_show_walk`'s.
#![tactic(auto)]

use map_tables::ShardKey;
use node_header::Node;
use node_shard::Nodes;
use spec::{Epoch, Metric};

// The workers to start for one shard, by rising node: what each is started with, and its peers.
#[derive(Clone, Copy)]
pub struct Start {
    pub key: ShardKey,
    pub epoch: Epoch,
    pub metric: Metric,
    pub peers: Nodes,
}

// The map is taken note of, or refused by a number.
#[derive(Clone, Copy)]
pub enum ShownAnswer {
    Shown,
    Refused(u8),
}

// The answer, the workers to start by shard key and then node (the first `count` of `starts`), and the node after.
#[derive(Clone, Copy)]
pub struct NodeShown {
    pub answer: ShownAnswer,
    pub starts: [Start; 8],
    pub count: usize,
    pub node: Node,
}

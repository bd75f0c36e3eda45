// Where new replicas go (the source's `place` and `replacement`), of the nodes that may be chosen with their loads: on the one with the fewest
// replicas, of level ones the lowest id. What an answer says of a map stands in specs/Answers.antt; the loads are counted in crate `image_map_loads`.
#![tactic(auto)]

use map_tables::{Placement, Refusal};
use spec::DataNodeId;

pub mod choose;
mod lists;
pub mod placed;

// A node that may be chosen, with the number of replicas it has.
#[derive(Clone, Copy)]
pub struct Load {
    pub node: DataNodeId,
    pub count: u64,
}

// The loads in use are the first `count` ids with the counts at the same places; the rest is free.
#[derive(Clone, Copy)]
pub struct Loads {
    pub ids: [u64; 32],
    pub counts: [u64; 32],
    pub count: usize,
}

// What `place` answers: lists of nodes, none where too few nodes live, or 23 and 24.
pub type PlaceAnswer = Result<Option<Placement>, Refusal>;

// What `replacement` answers: a node, none, or 24.
pub type Replaced = Result<Option<DataNodeId>, Refusal>;

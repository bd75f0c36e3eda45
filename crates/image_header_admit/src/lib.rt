// What a node decides before it touches a log (paper 01, 'The node'; node.rs: write, replicate_to), from the row of a held shard where it stands
// in a header's bytes: whether a Write is admitted, and the worker's step. Internal.
#![tactic(auto)]

pub mod admission;
pub mod worker;

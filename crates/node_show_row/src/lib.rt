// Below crate `node_show`: what a map says of one shard and of this node (paper 01, 'The node', 'Map shown'; node.rs, on_map). Internal.
#![tactic(auto)]

pub mod rows;

// Below crate `calls_show`: a map that changes what a node holds (paper 01, 'Map shown'; node.rs, on_map), over the bytes of the header and of
// the map. The rows held after and the workers to start are made in buffers of their own first: until all are there nobody knows whether the
// map is refused. Internal.
#![tactic(auto)]

pub mod put;
mod row;
pub mod slots;
pub mod walk;

// A ninth shard would be held, or a 33rd worker needed.
#[derive(Clone, Copy, Debug, PartialEq, Eq)]
pub struct Full;

// How many shards are held after, and how many workers are to start.
#[derive(Clone, Copy)]
pub struct RowsMade {
    pub count: usize,
    pub workers: usize,
}

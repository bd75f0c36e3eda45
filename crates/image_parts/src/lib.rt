// What the byte images of a map and of a node's header share (docs/IMAGES.md): shapes of fixed size with their laws, codes, names, keys,
// copies of a shard, and the canonical form in which they are written. Internal: a caller shows that the bytes are there.
#![tactic(auto)]

pub mod bytes;
pub mod codes;
pub mod keys;
pub mod replicas;
pub mod tidy;

// A remembered outcome in three numbers; an operand that it does not have is 0.
#[derive(Clone, Copy)]
pub struct Coded {
    pub code: u32,
    pub first: u64,
    pub second: u64,
}

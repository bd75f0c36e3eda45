// Nearest objects over a store's bytes (paper 01, 'Nearest objects'; shard.rs, search): the elements of the stored vectors are made of the
// patterns where they stand, and no column of the store is copied but that of the ids. Internal.
#![tactic(auto)]

mod column;
mod first;
mod four;

pub use first::nearest;

// One entry more in a store, where it stands in the bytes of its image: its numbers, its patterns, and its row of the table. Internal.
#![tactic(auto)]

pub mod entries;
pub mod ops;
pub mod rows;
mod words;

// Below crate `calls_show`: one row of a shown map taken to the row of the shard that is held, in the bytes of that row (paper 01, 'Map shown';
// node.rs, on_map). Internal.
#![tactic(auto)]

mod leave;
mod news;
mod peers;
pub mod row;
mod set;
pub mod starts;

// Below crate `calls_show`: what a map leaves of a node's header, decided over the bytes of both (paper 01, 'Map shown'; node.rs, on_map). Internal.
#![tactic(auto)]

pub mod dead;
pub mod quiet;
pub mod row;

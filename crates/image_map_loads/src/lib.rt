// The loads of a map's nodes, counted in the bytes that a host lends (docs/IMAGES.md; paper 01, 'Place'): rows in use only, each where it stands.
// Of a map that passed the test (24). Internal: what place, replacement and the losses begin with.
#![tactic(auto)]

pub mod lightest;
pub mod live;
pub mod replicas;

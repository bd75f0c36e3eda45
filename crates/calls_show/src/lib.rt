// A fresh node and a map shown over a header's image, in place (docs/IMAGES.md; paper 01, 'The node', 'Map shown').
#![tactic(auto)]

pub mod fresh;
pub mod show;

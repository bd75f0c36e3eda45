// A peer's reply over a header's image, in place (paper 01, 'Ack', 'Who is turned down').
#![tactic(auto)]

pub mod ack;
mod deeds;
mod heeds;
pub mod told;

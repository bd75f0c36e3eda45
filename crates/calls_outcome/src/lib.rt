// The outcome of a proposal over a header's image, in place (paper 01, 'Outcome of a proposal').
#![tactic(auto)]

pub mod outcome;
mod settle;

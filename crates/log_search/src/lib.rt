// Nearest objects (paper 01, 'Nearest objects'; shard.rs, search): the distance of each vector of one replica's lent store to
// a query, and the answer of a search. Which of them come first is `log_select`'s.
#![tactic(auto)]

pub mod answer;
mod column;
mod first;
pub mod query;

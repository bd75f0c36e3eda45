// What Search does at a node (paper 01, 'Who is turned down', Search; node.rs, search), said of a header and the columns of the store of the shard
// that the message names, the lent output, and the count of refused calls. A search changes nothing of the node. Definitions and laws, and the
// query as it stands in a message: no code has the rest by value.
#![tactic(auto)]

use spec::Epoch;

pub mod query;

// How many neighbours were found, 18 with the shard's own epoch, or the number of another refusal.
#[derive(Clone, Copy)]
pub enum SearchAnswer {
    Found(usize),
    NotPrimary(Epoch),
    Refused(u8),
}

// The answer, and the count of refused calls then.
#[derive(Clone, Copy)]
pub struct NodeSearched {
    pub answer: SearchAnswer,
    pub refused: u32,
}

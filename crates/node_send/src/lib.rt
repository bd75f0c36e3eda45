// What a primary's worker sends (paper 01, 'The node', the worker's step; 'Rules of a run', Messages; node.rs, replicate_to): the request of
// a step, written from the lent store of one held shard into a lent output, whole or not at all. The store has passed the test (24).
// The stores of its entries are crate `node_send_entries`.
#![tactic(auto)]

pub mod entries;
pub mod worker;

// Nothing to send (Stop, Wait), how many bytes were written from the output's start, or the number of a refusal: 24, which `node_step` tells, or
// 23 where the output is short of the request. Refused, the output stays as it was.
#[derive(Clone, Copy)]
pub enum Request {
    Unsent,
    Written(usize),
    Refused(u8),
}

// What a client's calls leave in a host's buffers (paper 01, 'Who is turned down', Write and Search; docs/IMAGES.md): the number of an answer
// with what stands beside it, and the count of refused calls. Internal: what `calls_write` and `calls_search` share.
#![tactic(auto)]

pub mod count;
pub mod hits;

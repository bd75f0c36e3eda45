// The calls on a node's header over its byte image (docs/IMAGES.md): the promises of all of them. They are kept in the lent bytes by
// `calls_grant`, `calls_wait`, `calls_ack`, `calls_outcome` and `calls_show`. A refused call leaves every byte of every buffer as it was, but for the
// own epoch beside 18. The calls ask nothing of their caller.
#![tactic(auto)]

pub mod times;

// What stands in a message goes into a lent store (paper 01, 'Bytes on the wire', 'The log', 'Who is turned down'), past the reader's test
// (21): the domain test (22), one entry, a batch, an epoch table. Internal: `wire_read` has read the message, and says where its parts stand. What is
// asked of a message before anything is stored is crate `log_domain`.
#![tactic(auto)]

pub mod copy;
pub mod domain;
pub mod ops;
pub mod store;
pub mod table;

// Stored entries as a primary's worker sends them (paper 01, 'Bytes on the wire', 20 and 22): from the columns of a lent store, which has passed
// the test (24), into a lent output that has room for them. Internal: crate `node_send` writes the messages that they stand in.
#![tactic(auto)]

pub mod entries;
pub mod entry;

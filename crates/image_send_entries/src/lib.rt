// Stored entries as a primary's worker sends them (paper 01, 'Bytes on the wire', 20 to 22), from the bytes of a store that has passed the
// test (24) straight into a lent output that has room for them: entries one after the other, and the epoch table of a log. Internal.
#![tactic(auto)]

pub mod entries;
pub mod table;

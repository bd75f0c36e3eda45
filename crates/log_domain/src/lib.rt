// What stands in a message (paper 01, 'Bytes on the wire', 'The log', 'Who is turned down'), past the reader's test (21), before anything of it is
// stored: the domain test (22), how far a log goes after a batch, and an epoch table, adopted. Internal: `wire_read` has read the message, and says
// where its parts stand.
#![tactic(auto)]

pub mod domain;
pub mod growth;
pub mod table;

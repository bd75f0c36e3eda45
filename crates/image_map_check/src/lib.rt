// A shard map in the bytes that a host lends (docs/IMAGES.md): tested and searched where it stands, rows in use only. What is promised is said of
// the map that the bytes are read as, which no function here makes: only names and keys are ever held by value. Internal: what the calls over a
// map's image begin with.
#![tactic(auto)]

pub mod formed;
pub mod layout;
pub mod lent;
pub mod place;
pub mod room;
mod rows;
mod table;

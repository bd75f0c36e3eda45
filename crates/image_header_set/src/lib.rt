// One row of a node's header changed where it stands, and then the header in the canonical form (docs/IMAGES.md). What is changed is stored as
// it is; whatever else the rows hold is put in order when the header is written back. Internal.
#![tactic(auto)]

pub mod back;
pub mod peers;
pub mod set;
pub mod version;

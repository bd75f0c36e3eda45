// A node's header in the bytes that a host lends (docs/IMAGES.md): tested and searched where it stands. What is promised is said of the header
// that the bytes are read as, which no function here makes: only keys are ever held by value. Internal: what the calls over a header's image
// begin with.
#![tactic(auto)]

pub mod formed;
pub mod place;

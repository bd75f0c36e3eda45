// The lent state of a call that touches one shard's log (paper 01, 'Who is turned down', 24), as what its bytes are read as: a header, and the
// columns of the one store that the call is lent, that of the shard which it names. Such a shard's slot is its own; one that is not held would
// begin in the lowest free slot. Definitions and laws. Internal.
// What the test of a lent state found: it is malformed, or the place of the shard that the call names.
#![tactic(auto)]

#[derive(Clone, Copy)]
pub enum Lent {
    Malformed,
    Absent,
    At(usize),
}

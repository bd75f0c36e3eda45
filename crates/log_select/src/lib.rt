// Which k of two columns come first, in order (paper 01, 'Nearest objects'): one column of ids, and one of distances or of
// the sums whose roots they are. It does not ask what filled them.
#![tactic(auto)]

pub mod select;
pub mod write;

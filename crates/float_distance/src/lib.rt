// Paper 01, 'Nearest objects', as code: the float root in whole numbers, the order of distances, the tests for the
// domain, and the sums of a distance. What is stored is crate `log_store`'s, the search over it crate `log_search`'s.
// All but `sums::distance` is internal and serves the crates above.
#![tactic(auto)]

pub mod four;
pub mod order;
pub mod root;
pub mod sums;

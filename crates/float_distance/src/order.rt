// Internal: the order and the tests of crate `float_order`.
pub use float_order::{before_bits, bits_in_domain, in_domain, nearer};

// Internal: of the tests of crate `wire_put`, those that crates above use.
pub use wire_put::fit::{op_size, text_fits};

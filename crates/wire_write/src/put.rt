// Internal: of the stores of crate `wire_put`, those that crates above use.
pub use wire_put::put::{put_byte, put_bytes, put_head, put_key, put_words8};

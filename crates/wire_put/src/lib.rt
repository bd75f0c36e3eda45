// Below the writer, crate `wire_write`: what of a message the layout can carry, and the stores of its fields into a buffer in
// which a caller has shown room. Internal: hosts call the writers. The bytes are those of `spec`'s `encode`.
#![tactic(auto)]

pub mod columns;
pub mod ends;
pub mod entry;
pub mod fit;
pub mod lists;
pub mod put;

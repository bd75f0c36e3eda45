// Internal: of the domain tests (22) of crate `log_domain`, those that crates above use.
pub use log_domain::domain::{entries_in_domain, op_in_domain};

// Internal: for the crates above, the alignment by an epoch table of a message, crate `log_domain`.
pub use log_domain::table::adopt_table;

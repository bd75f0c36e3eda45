// The commands with a shard (the source's with_shard): whether a change of one shard is taken, and what it makes of the shard's row. The types and
// tables are map_tables'; what a change does is `spec`'s Map.Change.
#![tactic(auto)]

pub mod of_shard;
mod row_change;

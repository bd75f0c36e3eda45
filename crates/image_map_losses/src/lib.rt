// Internal: one loss at a time, on the loads of the live nodes (paper 02, 2.9). A node marked dead leaves the loads and changes no other's, so
// that they are counted once for all nodes. Which nodes are asked, and where the answers go, is left to calls_losses.
#![tactic(auto)]

pub mod apart;
pub mod left;

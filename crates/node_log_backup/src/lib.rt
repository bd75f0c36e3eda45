// What a primary's messages do at one held shard with its lent store (paper 01, 'Who is turned down', Replicate, CopyShard, NewEpoch;
// node.rs, on_replicate, on_copy, on_new_epoch), past the checks of the message and of the lent state (21, 22, 24). Definitions and laws.
#![tactic(auto)]

use node_shard::Held;
use spec::{Epoch, Offset};

// The reply that goes back to the primary, 30 to 33, or 23.
#[derive(Drop)]
pub enum Answer {
    Stored(Offset),
    Gap(Offset),
    StaleEpoch(Epoch),
    Adopted(Offset),
    NoRoom,
}

// The answer, how many rows the vector table has then, and the shard after. Its log's length is the shard's `last`.
#[derive(Drop)]
pub struct Backed {
    pub answer: Answer,
    pub stored: usize,
    pub held: Held,
}

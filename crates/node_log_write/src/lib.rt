// Write on one held shard with its lent store (paper 01, 'Who is turned down', Write; node.rs, write), past the checks of the message and of
// the lent state: the header's decision, then the log and its vectors. Definitions and laws.
#![tactic(auto)]

use node_admit::Admit;
use node_shard::Held;

// Whether the write was admitted, how many rows the vector table has then, and the shard after. An admitted write's offset is the shard's
// last.
#[derive(Drop)]
pub struct Written {
    pub admit: Admit,
    pub stored: usize,
    pub held: Held,
}

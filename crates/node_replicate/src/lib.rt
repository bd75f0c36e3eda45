// What Replicate and CopyShard do at a node (paper 01, 'Who is turned down'; node.rs, on_replicate, on_copy), said of a header and the columns of
// the one store that they are lent, that of the shard which the message names. Definitions and laws: no code has them by value.
#![tactic(auto)]

use node_header::Node;
use spec::{Epoch, Offset};

// The reply that goes back to the primary, 30 to 33, or a refusal's number.
#[derive(Clone, Copy)]
pub enum PeerReply {
    Stored(Offset),
    Gap(Offset),
    StaleEpoch(Epoch),
    Adopted(Offset),
    Refused(u8),
}

#[derive(Clone, Copy)]
pub struct PeerAnswer {
    pub answer: PeerReply,
    pub node: Node,
}

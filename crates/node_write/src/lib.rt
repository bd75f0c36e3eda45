// What a client's Write does at a node (paper 01, 'Who is turned down', Write; node.rs, write), said of a header and the columns of the one store
// that it is lent, that of the shard which the message names, a clock reading, min_in_sync, and the count of refused calls. Definitions and laws:
// no code has them by value.
use node_header::Node;
use spec::{Epoch, Offset};

// Where the write was accepted; 18 with the own epoch, or another refusal's number.
#[derive(Clone, Copy)]
pub enum WriteReply {
    Accepted(Offset),
    NotPrimary(Epoch),
    Refused(u8),
}

// Before the call is counted.
#[derive(Clone, Copy)]
pub struct NodeWritten {
    pub answer: WriteReply,
    pub node: Node,
}

// `refused` is the count after the call.
#[derive(Clone, Copy)]
pub struct WriteAnswer {
    pub answer: WriteReply,
    pub node: Node,
    pub refused: u32,
}

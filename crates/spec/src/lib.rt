// The paper as definitions: everything a reader must believe stands in specs/, in the order of paper 01.
// This file holds no function. It declares the kinds that code and definitions share, so that a row of a
// table is the same thing in both.

// The source's three kinds of number, kept apart: an epoch, a data node's id, a place in a log (from 1).
#[derive(Clone, Copy)]
pub struct Epoch(pub u64);

#[derive(Clone, Copy)]
pub struct DataNodeId(pub u64);

#[derive(Clone, Copy)]
pub struct Offset(pub u64);

// How a collection measures distance (wire code 0 and 1).
#[derive(Clone, Copy)]
pub enum Metric {
    Euclidean,
    Angular,
}

// An id with its distance to the query.
#[derive(Clone, Copy)]
pub struct Neighbor {
    pub id: u64,
    pub distance: f32,
}

// One copy of a shard: the node that holds it, under the incarnation it had.
#[derive(Clone, Copy)]
pub struct Replica {
    pub node: DataNodeId,
    pub incarnation: u64,
}

// What a primary tracks of one started worker's peer. `acked` is 0 while nothing is known; `since` means
// something only while `behind`; `member` says whether the peer is in the ack set.
#[derive(Clone, Copy)]
pub struct Peer {
    pub node: DataNodeId,
    pub acked: Offset,
    pub aligned: bool,
    pub behind: bool,
    pub since: u64,
    pub proposing: bool,
    pub member: bool,
}

// `Option<Primary>` of the source, as an enum of numbers beside the arrays.
#[derive(Clone, Copy)]
pub enum Role {
    Backup,
    Primary { epoch: Epoch, end: Offset },
}

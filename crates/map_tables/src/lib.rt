// The shard map (the source's StateMachine, `place` and `replacement`): its rows and tables as structs, a request, and an answer. What each is read
// as stands in specs/View.antt; what a command does, in `spec`'s Map. Code works on rows: the tables stand in a map's image.
#![tactic(auto)]

ghost use Rattle.std.specs.Prelude.{◌≡◌};

use spec::{DataNodeId, Epoch, Metric, Replica};

pub mod answers;
pub mod holders_of;
pub mod names;

// A collection's name; bytes past `len` are free.
#[derive(Clone, Copy)]
pub struct Name {
    pub bytes: [u8; 32],
    pub len: usize,
}

// Where a node serves requests; bytes past `len` are free.
#[derive(Clone, Copy)]
pub struct Address {
    pub bytes: [u8; 64],
    pub len: usize,
}

#[derive(Clone, Copy)]
pub struct ShardKey {
    pub collection: Name,
    pub shard: u32,
}

// The source's DataNodeInfo, with its id.
#[derive(Clone, Copy)]
pub struct NodeRow {
    pub node: DataNodeId,
    pub address: Address,
    pub incarnation: u64,
    pub alive: bool,
}

// The source's CollectionSpec.
#[derive(Clone, Copy)]
pub struct Spec {
    pub dimension: u32,
    pub metric: Metric,
    pub shards: u32,
    pub replication: u32,
}

#[derive(Clone, Copy)]
pub struct CollectionRow {
    pub name: Name,
    pub spec: Spec,
}

// The copies of a shard in their order; places past `count` are free.
#[derive(Clone, Copy)]
pub struct Holders {
    pub items: [Replica; 8],
    pub count: usize,
}

// The source's in_sync, by rising id; places past `count` are free.
#[derive(Clone, Copy)]
pub struct InSync {
    pub items: [DataNodeId; 8],
    pub count: usize,
}

// The source's ShardInfo, with its key.
#[derive(Clone, Copy)]
pub struct ShardRow {
    pub key: ShardKey,
    pub replicas: Holders,
    pub primary: Option<DataNodeId>,
    pub insync: InSync,
    pub epoch: Epoch,
}

// Why a command is rejected, 1 to 16, with the numbers among its operands. A name or a key among them stands beside it.
#[derive(Clone, Copy)]
pub enum Rejection {
    Older,
    Exists,
    ZeroSpec,
    PlacementMismatch,
    NotAlive(DataNodeId),
    NoCollection,
    KnownIncarnation(DataNodeId, u64),
    NotAtIncarnation(DataNodeId, u64),
    NoShard,
    OtherEpoch(Epoch, Epoch),
    AlreadyHeld(DataNodeId),
    RemovesPrimary,
    NotHeld(DataNodeId),
    NotInSync(DataNodeId),
    ShrinksPrimary,
    AlreadyInSync(DataNodeId),
}

#[derive(Clone, Copy)]
pub enum Outcome {
    Applied,
    Rejected(Rejection),
}

// Why a call is refused: 21, 23, 24, 25.
#[derive(Clone, Copy)]
pub enum Refusal {
    Undecodable,
    NoRoom,
    Malformed,
    LastEpoch,
}

// An answer, with the name or key among its operands; where it has none, the key is free.
#[derive(Clone, Copy)]
pub struct Verdict {
    pub answer: Result<Outcome, Refusal>,
    pub key: ShardKey,
}

// What is remembered of a client: its last sequence number and that command's outcome.
#[derive(Clone, Copy)]
pub struct SessionRow {
    pub client: u64,
    pub seq: u64,
    pub outcome: Outcome,
    pub key: ShardKey,
}

// The tables: the first `count` rows are in use, by rising key; the rest is free.
#[derive(Drop)]
pub struct Nodes {
    pub items: [NodeRow; 32],
    pub count: usize,
}

#[derive(Drop)]
pub struct Collections {
    pub items: [CollectionRow; 16],
    pub count: usize,
}

#[derive(Drop)]
pub struct Shards {
    pub items: [ShardRow; 64],
    pub count: usize,
}

#[derive(Drop)]
pub struct Sessions {
    pub items: [SessionRow; 64],
    pub count: usize,
}

// The source's StateMachine.
#[derive(Drop)]
pub struct ShardMap {
    pub version: u64,
    pub nodes: Nodes,
    pub collections: Collections,
    pub shards: Shards,
    pub sessions: Sessions,
}

// The nodes of one shard to be, the primary first.
#[derive(Clone, Copy)]
pub struct NodeList {
    pub nodes: [DataNodeId; 8],
    pub count: usize,
}

// with_shard's closure as an enum of changes.
#[derive(Clone, Copy)]
pub enum Change {
    Add(DataNodeId, u64),
    Remove(DataNodeId),
    Promote(DataNodeId),
    Shrink(DataNodeId),
    Expand(DataNodeId),
}

// The commands 10 to 19. The name or key, the address and the placement stand beside it, in the request.
#[derive(Clone, Copy)]
pub enum Command {
    Create(Spec),
    Drop,
    Register(DataNodeId, u64),
    MarkNodeDead(DataNodeId, u64),
    OfShard(Change, Epoch),
    Bench,
}

// A request as it is read. Operands that its command does not have are free.
#[derive(Clone, Copy)]
pub struct Request {
    pub index: u64,
    pub client: u64,
    pub seq: u64,
    pub command: Command,
    pub key: ShardKey,
    pub address: Address,
    pub placement: Placement,
}

// One list for each shard of a new collection.
#[derive(Clone, Copy)]
pub struct Placement {
    pub lists: [NodeList; 16],
    pub count: usize,
}

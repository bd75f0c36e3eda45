// The message layout of paper 01, 'Bytes on the wire': the reader. It answers one enum of numbers; names, vectors,
// tables, lists and entries stay in the message, and the enum carries their places. What the numbers mean is
// `spec`'s Layout; specs/Shown.antt says how a value is shown as this enum. The shape tests are crate `wire_shape`, the
// writer is crate `wire_write`.
#![tactic(auto)]

ghost use Rattle.std.specs.Prelude.{◌≡◌};
ghost use Rattle.std.specs.Option.{unwrap_or};
ghost use Rattle.wire_read.specs.Shown.{message_of, request_read_of};

use kinds::{
    read_copy_shard, read_new_epoch, read_replicate, read_reply, read_request, read_search,
    read_whole_request, read_write,
};
use spec::{DataNodeId, Epoch, Metric, Offset};

mod command;
mod kinds;
pub mod parts;
pub mod placed;

// Where a part of a message begins, and how many bytes or items it has.
#[derive(Clone, Copy)]
pub struct Part {
    pub at: usize,
    pub len: usize,
}

// A shard's key: the place of its collection's name, and its number.
#[derive(Clone, Copy)]
pub struct KeyPart {
    pub name: Part,
    pub shard: u32,
}

// An operation; an Upsert's components are u32 bits at a place.
#[derive(Clone, Copy)]
pub enum OpPart {
    Upsert { id: u64, vector: Part },
    Delete { id: u64 },
}

// One entry of a CopyShard, and the place after it.
#[derive(Clone, Copy)]
pub struct EntryPart {
    pub epoch: Epoch,
    pub offset: Offset,
    pub op: OpPart,
    pub next: usize,
}

// One pair of an epoch table.
#[derive(Clone, Copy)]
pub struct EndPart {
    pub epoch: Epoch,
    pub end: Offset,
}

// 10: a placement's `len` lists stand one after the other from its place on.
#[derive(Clone, Copy)]
pub struct CreatePart {
    pub name: Part,
    pub dimension: u32,
    pub metric: Metric,
    pub shards: u32,
    pub replication: u32,
    pub placement: Part,
}

// 12
#[derive(Clone, Copy)]
pub struct RegisterPart {
    pub node: DataNodeId,
    pub address: Part,
    pub incarnation: u64,
}

// 13
#[derive(Clone, Copy)]
pub struct DeadPart {
    pub node: DataNodeId,
    pub incarnation: u64,
}

// 14
#[derive(Clone, Copy)]
pub struct AddPart {
    pub key: KeyPart,
    pub node: DataNodeId,
    pub incarnation: u64,
    pub epoch: Epoch,
}

// 15 to 18
#[derive(Clone, Copy)]
pub struct ChangePart {
    pub key: KeyPart,
    pub node: DataNodeId,
    pub epoch: Epoch,
}

// The commands 10 to 19; Drop has its name, Bench its bytes.
#[derive(Clone, Copy)]
pub enum CommandPart {
    Create(CreatePart),
    Drop(Part),
    Register(RegisterPart),
    MarkNodeDead(DeadPart),
    AddReplica(AddPart),
    Remove(ChangePart),
    Promote(ChangePart),
    Shrink(ChangePart),
    Expand(ChangePart),
    Bench(Part),
}

// 01
#[derive(Clone, Copy)]
pub struct RequestPart {
    pub index: u64,
    pub client: u64,
    pub seq: u64,
    pub command: CommandPart,
}

// 20
#[derive(Clone, Copy)]
pub struct ReplicatePart {
    pub key: KeyPart,
    pub epoch: Epoch,
    pub offset: Offset,
    pub op: OpPart,
}

// 21: the table's pairs have 16 bytes each.
#[derive(Clone, Copy)]
pub struct NewEpochPart {
    pub key: KeyPart,
    pub epoch: Epoch,
    pub end: Offset,
    pub table: Part,
    pub metric: Metric,
}

// 22: the entries stand one after the other.
#[derive(Clone, Copy)]
pub struct CopyPart {
    pub key: KeyPart,
    pub epoch: Epoch,
    pub entries: Part,
}

// 23
#[derive(Clone, Copy)]
pub struct WritePart {
    pub key: KeyPart,
    pub epoch: Epoch,
    pub op: OpPart,
}

// 24
#[derive(Clone, Copy)]
pub struct SearchPart {
    pub key: KeyPart,
    pub epoch: Epoch,
    pub k: u32,
    pub vector: Part,
}

// A message: 01, 20 to 24, 30 to 33, or bytes that are none of these.
#[derive(Clone, Copy)]
pub enum Message {
    Undecodable,
    Request(RequestPart),
    Replicate(ReplicatePart),
    NewEpoch(NewEpochPart),
    CopyShard(CopyPart),
    Write(WritePart),
    Search(SearchPart),
    Stored(Offset),
    Gap(Offset),
    StaleEpoch(Epoch),
    Adopted(Offset),
}

// A request that was read at a position, and the position after it; where none stands, that position again.
#[derive(Clone, Copy)]
pub struct RequestRead {
    pub message: Message,
    pub next: usize,
}

// The message that the bytes are, all of them.
fn read(s: &[u8]) -> Option<Message>
    ensures { unwrap_or result Message.Undecodable ≡ message_of s.now }
{
    if s.len() == 0 {
        return None;
    }
    match s[0] {
        0x01 => read_whole_request(s),
        0x20 => read_replicate(s),
        0x21 => read_new_epoch(s),
        0x22 => read_copy_shard(s),
        0x23 => read_write(s),
        0x24 => read_search(s),
        _ => read_reply(s),
    }
}

// The message that the bytes are, all of them, or Undecodable.
pub fn decode(s: &[u8]) -> Message
    ensures { result ≡ message_of s.now }
{
    read(s).unwrap_or(Message::Undecodable)
}

// The request that begins at a position, taken by its own length: for requests that follow one another.
pub fn request_at(s: &[u8], at: usize) -> RequestRead
    ensures { result ≡ request_read_of s.now at }
{
    match read_request(s, at) {
        Some((request, next)) => RequestRead {
            message: Message::Request(request),
            next,
        },
        None => RequestRead {
            message: Message::Undecodable,
            next: at,
        },
    }
}

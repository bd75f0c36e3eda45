// A Replicate at the shard that it names, past Undecodable and OutsideDomain. Internal.
ghost use Rattle.std.specs.Prelude.{◌≡◌, ◌≤◌, length};
ghost use Rattle.map_tables.specs.Names.{view_key};
ghost use Rattle.image_node_check.specs.Find.{FoundIn};
ghost use Rattle.node_replicate.specs.Peers.{ReplicatesAt};
ghost use Rattle.calls_parts.specs.Refusals.{number_of};
ghost use Rattle.calls_peer.specs.PeerCalls.{AtShard, replicates, buffers};
ghost use Rattle.calls_replicate.specs.Asked.{Asked, laid};

use calls_parts::refusal::Refusal;
use calls_peer_out::put_reply;
use image_layout::header::{EPOCH, LAST, ROW, ROWS};
use image_node_check::find;
use image_node_grow::{grow, tidy};
use map_tables::ShardKey;
use node_lent::Lent;
use spec::{Epoch, Offset};
use wire_read::ReplicatePart;
use wire_write::Reply;

// As many entries as a log holds.
const ENTRIES: u64 = 1024;

// The bytes of a reply.
const REPLY: usize = 9;

// What is told of an entry that is not the next: it is there already, or there is a gap before it.
fn told(offset: u64, last: u64) -> Reply
    requires { last ≤ 1024 }
    ensures { result ≡ laid offset last }
{
    if offset <= last {
        return Reply::Stored(Offset(last));
    }
    Reply::Gap(Offset(last + 1))
}

// At its place in the header: StaleEpoch, NoRoom in the log or for the reply, then the entry stored, there already, or a gap.
fn replicate_at(
    header: &mut [u8],
    at: usize,
    stores: &mut [u8],
    key: ShardKey,
    message: &[u8],
    p: ReplicatePart,
    reply: &mut [u8],
) -> Result<(), Refusal>
    requires { FoundIn header.old stores.old (view_key key) at × Asked message.now p (view_key key) }
    ensures { AtShard ReplicatesAt replicates (view_key key) message.now
        (buffers header.old stores.old reply.old)
        (buffers header.new stores.new reply.new) (number_of result) }
{
    let row = ROWS + ROW * at;
    let own = num::get8(header, row + EPOCH);
    let last = num::get8(header, row + LAST);
    let epoch = p.epoch;
    let offset = p.offset;
    if epoch.0 != own {
        return put_reply(reply, Reply::StaleEpoch(Epoch(own)));
    }
    let next = last + 1;
    if offset.0 == next {
        if last == ENTRIES {
            return Err(Refusal::NoRoom);
        }
        if reply.len() < REPLY {
            return Err(Refusal::NoRoom);
        }
        let op = p.op;
        grow(header, stores, at, message, op);
        return put_reply(reply, Reply::Stored(Offset(next)));
    }
    if reply.len() < REPLY {
        return Err(Refusal::NoRoom);
    }
    tidy(header, at);
    put_reply(reply, told(offset.0, last))
}

// Malformed; an unknown shard is StaleEpoch 0.
pub fn at_shard(
    header: &mut [u8],
    stores: &mut [u8],
    key: ShardKey,
    message: &[u8],
    p: ReplicatePart,
    reply: &mut [u8],
) -> Result<(), Refusal>
    requires { Asked message.now p (view_key key) }
    ensures { AtShard ReplicatesAt replicates (view_key key) message.now
        (buffers header.old stores.old reply.old)
        (buffers header.new stores.new reply.new) (number_of result) }
{
    let found = find(header, stores, key);
    match found {
        Lent::Malformed => Err(Refusal::Malformed),
        Lent::Absent => put_reply(reply, Reply::StaleEpoch(Epoch(0))),
        Lent::At(at) => replicate_at(header, at, stores, key, message, p, reply),
    }
}

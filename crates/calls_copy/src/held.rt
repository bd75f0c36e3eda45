// A CopyShard at the shard that it names, past Undecodable and OutsideDomain. Internal.
ghost use Rattle.std.specs.Prelude.{◌≡◌};
ghost use Rattle.map_tables.specs.Names.{view_key};
ghost use Rattle.log_check.specs.Conditions.{Decides};
ghost use Rattle.image_node_check.specs.Find.{FoundIn};
ghost use Rattle.node_replicate.specs.Peers.{CopiesAt};
ghost use Rattle.calls_parts.specs.Refusals.{number_of};
ghost use Rattle.calls_peer.specs.PeerCalls.{AtShard, copies, buffers};
ghost use Rattle.calls_copy.specs.Asked.{Asked};

use crate::batch::grow_all;
use calls_parts::refusal::Refusal;
use calls_peer_out::put_reply;
use image_layout::header::{EPOCH, LAST, ROW, ROWS};
use image_node_batch::room::has_room;
use image_node_check::find;
use map_tables::ShardKey;
use node_lent::Lent;
use spec::{Epoch, Offset};
use wire_read::CopyPart;
use wire_write::Reply;

// The bytes of a reply.
const REPLY: usize = 9;

// Whether a batch of n entries is of another epoch; an empty one is stored at any.
fn is_stale(n: usize, epoch: u64, own: u64) -> bool
    ensures { Decides result ((n ≡ 0 → ⊥) × (epoch ≡ own → ⊥)) }
{
    if n == 0 {
        return false;
    }
    if epoch == own {
        return false;
    }
    true
}

// At its place in the header: StaleEpoch, NoRoom in the log or for the reply, then the entries stored that were missing.
fn copy_at(
    header: &mut [u8],
    at: usize,
    stores: &mut [u8],
    key: ShardKey,
    message: &[u8],
    p: CopyPart,
    reply: &mut [u8],
) -> Result<(), Refusal>
    requires { FoundIn header.old stores.old (view_key key) at × Asked message.now p (view_key key) }
    ensures { AtShard CopiesAt copies (view_key key) message.now
        (buffers header.old stores.old reply.old)
        (buffers header.new stores.new reply.new) (number_of result) }
{
    let row = ROWS + ROW * at;
    let own = num::get8(header, row + EPOCH);
    let last = num::get8(header, row + LAST) as usize;
    let epoch = p.epoch;
    let entries = p.entries;
    if is_stale(entries.len, epoch.0, own) {
        return put_reply(reply, Reply::StaleEpoch(Epoch(own)));
    }
    if !has_room(message, entries, last) {
        return Err(Refusal::NoRoom);
    }
    if reply.len() < REPLY {
        return Err(Refusal::NoRoom);
    }
    let through = grow_all(header, stores, at, message, entries);
    put_reply(reply, Reply::Stored(Offset(through)))
}

// Malformed; an unknown shard is StaleEpoch 0.
pub fn at_shard(
    header: &mut [u8],
    stores: &mut [u8],
    key: ShardKey,
    message: &[u8],
    p: CopyPart,
    reply: &mut [u8],
) -> Result<(), Refusal>
    requires { Asked message.now p (view_key key) }
    ensures { AtShard CopiesAt copies (view_key key) message.now
        (buffers header.old stores.old reply.old)
        (buffers header.new stores.new reply.new) (number_of result) }
{
    let found = find(header, stores, key);
    match found {
        Lent::Malformed => Err(Refusal::Malformed),
        Lent::Absent => put_reply(reply, Reply::StaleEpoch(Epoch(0))),
        Lent::At(at) => copy_at(header, at, stores, key, message, p, reply),
    }
}

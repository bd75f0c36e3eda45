// The writers of 01, one a command; Create's is in create.rt.
ghost use Rattle.std.specs.Prelude.{◌≡◌, true, length};
ghost use Rattle.spec.specs.Layout.Request.{add_replica, bench, drop_collection, encode_request, mark_dead, register};
ghost use Rattle.wire_write.specs.Requests.{change_code, change_given, request_given};
ghost use Rattle.wire_write.specs.Written.{Written};
ghost use Rattle.wire_put.specs.Fields.{count_fits, key_given, text_fits};

use crate::{Change, Unwritten};
use spec::{DataNodeId, Epoch};
use wire_put::fit::{count_fits, text_fits};
use wire_put::put::{put_bytes, put_key, put_request_head, put_text};

// 11 Drop: name.
pub fn write_drop(
    out: &mut [u8],
    index: u64,
    client: u64,
    seq: u64,
    name: &[u8],
) -> Result<usize, Unwritten>
    ensures { Written (text_fits 32 name.now) (encode_request (request_given index client seq (drop_collection name.now))) out.old out.new result }
{
    if !text_fits(name, 32) {
        return Err(Unwritten::Unfit);
    }
    if out.len() < 59 {
        return Err(Unwritten::Short);
    }
    put_request_head(out, index, client, seq, 0x11);
    put_text(out, 26, 32, name);
    Ok(59)
}

// 12 Register: node address incarnation.
pub fn write_register(
    out: &mut [u8],
    index: u64,
    client: u64,
    seq: u64,
    node: DataNodeId,
    address: &[u8],
    incarnation: u64,
) -> Result<usize, Unwritten>
    ensures { Written (text_fits 64 address.now) (encode_request (request_given index client seq (register node.0 address.now incarnation))) out.old out.new result }
{
    if !text_fits(address, 64) {
        return Err(Unwritten::Unfit);
    }
    if out.len() < 107 {
        return Err(Unwritten::Short);
    }
    put_request_head(out, index, client, seq, 0x12);
    num::put8(out, 26, node.0);
    put_text(out, 34, 64, address);
    num::put8(out, 99, incarnation);
    Ok(107)
}

// 13 MarkNodeDead: node incarnation.
pub fn write_mark_dead(
    out: &mut [u8],
    index: u64,
    client: u64,
    seq: u64,
    node: DataNodeId,
    incarnation: u64,
) -> Result<usize, Unwritten>
    ensures { Written true (encode_request (request_given index client seq (mark_dead node.0 incarnation))) out.old out.new result }
{
    if out.len() < 42 {
        return Err(Unwritten::Short);
    }
    put_request_head(out, index, client, seq, 0x13);
    num::put8(out, 26, node.0);
    num::put8(out, 34, incarnation);
    Ok(42)
}

// 14 AddReplica: key node incarnation epoch.
pub fn write_add_replica(
    out: &mut [u8],
    index: u64,
    client: u64,
    seq: u64,
    name: &[u8],
    shard: u32,
    node: DataNodeId,
    incarnation: u64,
    epoch: Epoch,
) -> Result<usize, Unwritten>
    ensures { Written (text_fits 32 name.now) (encode_request (request_given index client seq (add_replica (key_given name.now shard) node.0 incarnation epoch.0))) out.old out.new result }
{
    if !text_fits(name, 32) {
        return Err(Unwritten::Unfit);
    }
    if out.len() < 87 {
        return Err(Unwritten::Short);
    }
    put_request_head(out, index, client, seq, 0x14);
    put_key(out, 26, name, shard);
    num::put8(out, 63, node.0);
    num::put8(out, 71, incarnation);
    num::put8(out, 79, epoch.0);
    Ok(87)
}

// The code of a change.
fn change_code(change: Change) -> u8
    ensures { result ≡ change_code change }
{
    match change {
        Change::Remove => 0x15,
        Change::Promote => 0x16,
        Change::Shrink => 0x17,
        Change::Expand => 0x18,
    }
}

// 15 Remove, 16 Promote, 17 Shrink, 18 Expand: key node epoch.
pub fn write_change(
    out: &mut [u8],
    index: u64,
    client: u64,
    seq: u64,
    change: Change,
    name: &[u8],
    shard: u32,
    node: DataNodeId,
    epoch: Epoch,
) -> Result<usize, Unwritten>
    ensures { Written (text_fits 32 name.now) (encode_request (request_given index client seq (change_given change (key_given name.now shard) node.0 epoch.0))) out.old out.new result }
{
    if !text_fits(name, 32) {
        return Err(Unwritten::Unfit);
    }
    if out.len() < 79 {
        return Err(Unwritten::Short);
    }
    put_request_head(out, index, client, seq, change_code(change));
    put_key(out, 26, name, shard);
    num::put8(out, 63, node.0);
    num::put8(out, 71, epoch.0);
    Ok(79)
}

// 19 Bench: length, bytes.
pub fn write_bench(
    out: &mut [u8],
    index: u64,
    client: u64,
    seq: u64,
    bytes: &[u8],
) -> Result<usize, Unwritten>
    ensures { Written (count_fits 0 1024 (length bytes.now)) (encode_request (request_given index client seq (bench bytes.now))) out.old out.new result }
{
    let n = bytes.len();
    if !count_fits(0, 1024, n) {
        return Err(Unwritten::Unfit);
    }
    if out.len() < 28 + n {
        return Err(Unwritten::Short);
    }
    put_request_head(out, index, client, seq, 0x19);
    num::put2(out, 26, n as u16);
    put_bytes(out, 28, bytes);
    Ok(28 + n)
}

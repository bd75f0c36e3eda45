// One line a message: the kind's code in hexadecimal, and the fields in the order of the wire. What was decoded is then written
// again by crate wire_write and compared: each function answers whether the writer makes these bytes of it.
ghost use Rattle.spec.specs.Layout.Parts.{entry_f};
ghost use Rattle.test_decode.specs.Held.{CommandHeld, OpHeld, Row, Run};

use crate::again::{after, first, same};
use crate::command::{Asked, command};
use crate::items::{entries, key, metric, op, table, vector};
use crate::words::{kind, number};
use wire_read::{
    CopyPart, Message, NewEpochPart, ReplicatePart, RequestPart, SearchPart, WritePart,
};
use wire_write::Reply;

fn request(s: &[u8], p: RequestPart) -> bool
    requires { CommandHeld s.now p.command }
{
    kind(0x01);
    number(p.index);
    number(p.client);
    number(p.seq);
    let a = Asked {
        index: p.index,
        client: p.client,
        seq: p.seq,
    };
    let c = p.command;
    command(s, a, c)
}

fn replicate(s: &[u8], p: ReplicatePart) -> bool
    requires { OpHeld s.now p.op }
{
    kind(0x20);
    let k = p.key;
    key(s, k);
    number(p.epoch.0);
    number(p.offset.0);
    let o = p.op;
    let mut bits = [0u32; 8192];
    let t = op(s, o, &mut bits, 0);
    let name = k.name;
    let epoch = p.epoch;
    let offset = p.offset;
    let mut out = io::large_buffer();
    let w = wire_write::message::write_replicate(
        &mut out,
        wire_read::parts::bytes(s, name),
        k.shard,
        epoch,
        offset,
        t.upsert,
        t.id,
        first(&bits, t.n),
    );
    same(s, &out, w)
}

// The epochs stand in the column, the ends from place 1024 on.
fn new_epoch_again(s: &[u8], p: NewEpochPart, column: &[u64; 2048], n: usize) -> bool {
    let k = p.key;
    let name = k.name;
    let epoch = p.epoch;
    let end = p.end;
    let metric = p.metric;
    let mut out = io::large_buffer();
    let w = wire_write::table::write_new_epoch(
        &mut out,
        wire_read::parts::bytes(s, name),
        k.shard,
        epoch,
        end,
        first(column, n),
        first(after(column, 1024), n),
        metric,
    );
    same(s, &out, w)
}

fn new_epoch(s: &[u8], p: NewEpochPart) -> bool
    requires { Run 16 s.now p.table }
{
    kind(0x21);
    let k = p.key;
    key(s, k);
    number(p.epoch.0);
    number(p.end.0);
    let t = p.table;
    let mut column = [0u64; 2048];
    let n = table(s, t, &mut column);
    let m = p.metric;
    metric(m);
    new_epoch_again(s, p, &column, n)
}

// The rows stand in the columns as crate::items::entries puts them.
fn copy_shard_again(
    s: &[u8],
    p: CopyPart,
    words: &[u64; 768],
    small: &[u8; 512],
    bits: &[u32; 8192],
    n: usize,
) -> bool {
    let k = p.key;
    let name = k.name;
    let epoch = p.epoch;
    let mut out = io::large_buffer();
    let w = wire_write::copy::write_copy_shard(
        &mut out,
        wire_read::parts::bytes(s, name),
        k.shard,
        epoch,
        words,
        after(words, 256),
        small,
        after(words, 512),
        after(small, 256),
        bits,
        n,
    );
    same(s, &out, w)
}

fn copy_shard(s: &[u8], p: CopyPart) -> bool
    requires { Row entry_f s.now p.entries }
{
    kind(0x22);
    let k = p.key;
    key(s, k);
    number(p.epoch.0);
    let e = p.entries;
    let mut words = [0u64; 768];
    let mut small = [0u8; 512];
    let mut bits = [0u32; 8192];
    let n = entries(s, e, &mut words, &mut small, &mut bits);
    copy_shard_again(s, p, &words, &small, &bits, n)
}

fn write(s: &[u8], p: WritePart) -> bool
    requires { OpHeld s.now p.op }
{
    kind(0x23);
    let k = p.key;
    key(s, k);
    number(p.epoch.0);
    let o = p.op;
    let mut bits = [0u32; 8192];
    let t = op(s, o, &mut bits, 0);
    let name = k.name;
    let epoch = p.epoch;
    let mut out = io::large_buffer();
    let w = wire_write::message::write_write(
        &mut out,
        wire_read::parts::bytes(s, name),
        k.shard,
        epoch,
        t.upsert,
        t.id,
        first(&bits, t.n),
    );
    same(s, &out, w)
}

fn search(s: &[u8], p: SearchPart) -> bool
    requires { Run 4 s.now p.vector }
{
    kind(0x24);
    let k = p.key;
    key(s, k);
    number(p.epoch.0);
    number(p.k as u64);
    let v = p.vector;
    let mut bits = [0u32; 8192];
    let n = vector(s, v, &mut bits, 0);
    let name = k.name;
    let epoch = p.epoch;
    let mut out = io::large_buffer();
    let w = wire_write::message::write_search(
        &mut out,
        wire_read::parts::bytes(s, name),
        k.shard,
        epoch,
        p.k,
        first(&bits, n),
    );
    same(s, &out, w)
}

fn reply(s: &[u8], code: u64, n: u64, r: Reply) -> bool {
    kind(code);
    number(n);
    let mut out = io::large_buffer();
    let w = wire_write::message::write_reply(&mut out, r);
    same(s, &out, w)
}

fn undecodable() -> bool {
    io::write_all(1, b"undecodable");
    true
}

// The message that the bytes are.
pub fn message(s: &[u8]) -> bool {
    let m = wire_read::decode(s);
    match m {
        Message::Undecodable => undecodable(),
        Message::Request(p) => request(s, p),
        Message::Replicate(p) => replicate(s, p),
        Message::NewEpoch(p) => new_epoch(s, p),
        Message::CopyShard(p) => copy_shard(s, p),
        Message::Write(p) => write(s, p),
        Message::Search(p) => search(s, p),
        Message::Stored(n) => reply(s, 0x30, n.0, Reply::Stored(n)),
        Message::Gap(n) => reply(s, 0x31, n.0, Reply::Gap(n)),
        Message::StaleEpoch(n) => reply(s, 0x32, n.0, Reply::StaleEpoch(n)),
        Message::Adopted(n) => reply(s, 0x33, n.0, Reply::Adopted(n)),
    }
}

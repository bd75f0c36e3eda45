// For bench/layout: the reader of crate wire_read behind one C function. Its answer is made of every number and place that a
// message decodes to, so that nothing of the reading can be left out. It says nothing of the layout; that is wire_read's.
#![tactic(auto)]

use spec::Metric;
use wire_read::{
    AddPart, ChangePart, CommandPart, CopyPart, CreatePart, DeadPart, KeyPart, Message,
    NewEpochPart, OpPart, Part, RegisterPart, ReplicatePart, RequestPart, SearchPart, WritePart,
};

fn part(p: Part) -> u64 {
    (p.at as u64) ^ (p.len as u64)
}

fn key(k: KeyPart) -> u64 {
    let name = k.name;
    part(name) ^ (k.shard as u64)
}

fn op(o: OpPart) -> u64 {
    match o {
        OpPart::Upsert { id, vector } => 1 ^ id ^ part(vector),
        OpPart::Delete { id } => 2 ^ id,
    }
}

fn metric(m: Metric) -> u64 {
    match m {
        Metric::Euclidean => 0,
        Metric::Angular => 1,
    }
}

fn create(c: CreatePart) -> u64 {
    let name = c.name;
    let m = c.metric;
    let placement = c.placement;
    part(name)
        ^ (c.dimension as u64)
        ^ metric(m)
        ^ (c.shards as u64)
        ^ (c.replication as u64)
        ^ part(placement)
}

fn register(c: RegisterPart) -> u64 {
    let address = c.address;
    c.node.0 ^ part(address) ^ c.incarnation
}

fn dead(c: DeadPart) -> u64 {
    c.node.0 ^ c.incarnation
}

fn add(c: AddPart) -> u64 {
    let k = c.key;
    key(k) ^ c.node.0 ^ c.incarnation ^ c.epoch.0
}

fn change(c: ChangePart) -> u64 {
    let k = c.key;
    key(k) ^ c.node.0 ^ c.epoch.0
}

fn command(c: CommandPart) -> u64 {
    match c {
        CommandPart::Create(x) => 0x10 ^ create(x),
        CommandPart::Drop(name) => 0x11 ^ part(name),
        CommandPart::Register(x) => 0x12 ^ register(x),
        CommandPart::MarkNodeDead(x) => 0x13 ^ dead(x),
        CommandPart::AddReplica(x) => 0x14 ^ add(x),
        CommandPart::Remove(x) => 0x15 ^ change(x),
        CommandPart::Promote(x) => 0x16 ^ change(x),
        CommandPart::Shrink(x) => 0x17 ^ change(x),
        CommandPart::Expand(x) => 0x18 ^ change(x),
        CommandPart::Bench(padding) => 0x19 ^ part(padding),
    }
}

fn request(p: RequestPart) -> u64 {
    let c = p.command;
    p.index ^ p.client ^ p.seq ^ command(c)
}

fn replicate(p: ReplicatePart) -> u64 {
    let k = p.key;
    let o = p.op;
    key(k) ^ p.epoch.0 ^ p.offset.0 ^ op(o)
}

fn new_epoch(p: NewEpochPart) -> u64 {
    let k = p.key;
    let table = p.table;
    let m = p.metric;
    key(k) ^ p.epoch.0 ^ p.end.0 ^ part(table) ^ metric(m)
}

fn copy_shard(p: CopyPart) -> u64 {
    let k = p.key;
    let entries = p.entries;
    key(k) ^ p.epoch.0 ^ part(entries)
}

fn write(p: WritePart) -> u64 {
    let k = p.key;
    let o = p.op;
    key(k) ^ p.epoch.0 ^ op(o)
}

fn search(p: SearchPart) -> u64 {
    let k = p.key;
    let vector = p.vector;
    key(k) ^ p.epoch.0 ^ (p.k as u64) ^ part(vector)
}

// All of a message in one number; 0 where the bytes are none.
#[unsafe(no_mangle)]
pub extern "C" fn engine_decode(s: &[u8]) -> u64 {
    let m = wire_read::decode(s);
    match m {
        Message::Undecodable => 0,
        Message::Request(p) => 0x0100 ^ request(p),
        Message::Replicate(p) => 0x2000 ^ replicate(p),
        Message::NewEpoch(p) => 0x2100 ^ new_epoch(p),
        Message::CopyShard(p) => 0x2200 ^ copy_shard(p),
        Message::Write(p) => 0x2300 ^ write(p),
        Message::Search(p) => 0x2400 ^ search(p),
        Message::Stored(n) => 0x3000 ^ n.0,
        Message::Gap(n) => 0x3100 ^ n.0,
        Message::StaleEpoch(n) => 0x3200 ^ n.0,
        Message::Adopted(n) => 0x3300 ^ n.0,
    }
}

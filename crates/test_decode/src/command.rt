// The commands 10 to 19 of a request: the code in hexadecimal, and the operands; then the request written again. Each function
// answers whether the writer makes these bytes of what was decoded.
ghost use Rattle.spec.specs.Layout.Format.{many};
ghost use Rattle.spec.specs.Layout.Parts.{u64};
ghost use Rattle.test_decode.specs.Held.{CommandHeld, Row};

use crate::again::same;
use crate::items::{key, metric, placement, text};
use crate::words::number;
use wire_read::{AddPart, ChangePart, CommandPart, CreatePart, DeadPart, Part, RegisterPart};
use wire_write::Change;
use wire_write::create::write_create;
use wire_write::request::{
    write_add_replica, write_bench, write_change, write_drop, write_mark_dead, write_register,
};

// Who asks: a request without its command.
#[derive(Drop)]
pub struct Asked {
    pub index: u64,
    pub client: u64,
    pub seq: u64,
}

fn create_again(
    s: &[u8],
    a: Asked,
    c: CreatePart,
    counts: &[u8; 16],
    nodes: &[u64; 128],
    n: usize,
) -> bool {
    let name = c.name;
    let metric = c.metric;
    let mut out = io::large_buffer();
    let w = write_create(
        &mut out,
        a.index,
        a.client,
        a.seq,
        wire_read::parts::bytes(s, name),
        c.dimension,
        metric,
        c.shards,
        c.replication,
        counts,
        nodes,
        n,
    );
    same(s, &out, w)
}

fn create(s: &[u8], a: Asked, c: CreatePart) -> bool
    requires { Row (many 1 0 8 u64) s.now c.placement }
{
    number(10);
    let name = c.name;
    text(s, name);
    number(c.dimension as u64);
    let m = c.metric;
    metric(m);
    number(c.shards as u64);
    number(c.replication as u64);
    let lists = c.placement;
    let mut counts = [0u8; 16];
    let mut nodes = [0u64; 128];
    let n = placement(s, lists, &mut counts, &mut nodes);
    create_again(s, a, c, &counts, &nodes, n)
}

fn register(s: &[u8], a: Asked, c: RegisterPart) -> bool {
    number(12);
    number(c.node.0);
    let address = c.address;
    text(s, address);
    number(c.incarnation);
    let node = c.node;
    let mut out = io::large_buffer();
    let w = write_register(
        &mut out,
        a.index,
        a.client,
        a.seq,
        node,
        wire_read::parts::bytes(s, address),
        c.incarnation,
    );
    same(s, &out, w)
}

fn dead(s: &[u8], a: Asked, c: DeadPart) -> bool {
    number(13);
    number(c.node.0);
    number(c.incarnation);
    let node = c.node;
    let mut out = io::large_buffer();
    let w = write_mark_dead(&mut out, a.index, a.client, a.seq, node, c.incarnation);
    same(s, &out, w)
}

fn add(s: &[u8], a: Asked, c: AddPart) -> bool {
    number(14);
    let k = c.key;
    key(s, k);
    number(c.node.0);
    number(c.incarnation);
    number(c.epoch.0);
    let name = k.name;
    let node = c.node;
    let epoch = c.epoch;
    let mut out = io::large_buffer();
    let w = write_add_replica(
        &mut out,
        a.index,
        a.client,
        a.seq,
        wire_read::parts::bytes(s, name),
        k.shard,
        node,
        c.incarnation,
        epoch,
    );
    same(s, &out, w)
}

fn change(s: &[u8], a: Asked, code: u64, kind: Change, c: ChangePart) -> bool {
    number(code);
    let k = c.key;
    key(s, k);
    number(c.node.0);
    number(c.epoch.0);
    let name = k.name;
    let node = c.node;
    let epoch = c.epoch;
    let mut out = io::large_buffer();
    let w = write_change(
        &mut out,
        a.index,
        a.client,
        a.seq,
        kind,
        wire_read::parts::bytes(s, name),
        k.shard,
        node,
        epoch,
    );
    same(s, &out, w)
}

fn drop_collection(s: &[u8], a: Asked, name: Part) -> bool {
    number(11);
    text(s, name);
    let mut out = io::large_buffer();
    let b = wire_read::parts::bytes(s, name);
    let w = write_drop(&mut out, a.index, a.client, a.seq, b);
    same(s, &out, w)
}

fn bench(s: &[u8], a: Asked, padding: Part) -> bool {
    number(19);
    number(padding.len as u64);
    text(s, padding);
    let mut out = io::large_buffer();
    let b = wire_read::parts::bytes(s, padding);
    let w = write_bench(&mut out, a.index, a.client, a.seq, b);
    same(s, &out, w)
}

pub fn command(s: &[u8], a: Asked, c: CommandPart) -> bool
    requires { CommandHeld s.now c }
{
    match c {
        CommandPart::Create(x) => create(s, a, x),
        CommandPart::Drop(name) => drop_collection(s, a, name),
        CommandPart::Register(x) => register(s, a, x),
        CommandPart::MarkNodeDead(x) => dead(s, a, x),
        CommandPart::AddReplica(x) => add(s, a, x),
        CommandPart::Remove(x) => change(s, a, 15, Change::Remove, x),
        CommandPart::Promote(x) => change(s, a, 16, Change::Promote, x),
        CommandPart::Shrink(x) => change(s, a, 17, Change::Shrink, x),
        CommandPart::Expand(x) => change(s, a, 18, Change::Expand, x),
        CommandPart::Bench(padding) => bench(s, a, padding),
    }
}

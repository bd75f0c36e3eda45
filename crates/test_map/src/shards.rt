// The shards of a map, a line for each: the replicas in their order, the in-sync set by rising id.
ghost use Rattle.image_map_put.specs.Few.{Few};

use crate::words::key;
use image_map_check::layout::{SHARD, SHARDS, SHARDS_USED};
use image_map_row::shards::shard_at;
use map_tables::{Holders, InSync, ShardRow};
use spec::DataNodeId;
use test_lines::words::number;

fn primary(p: Option<DataNodeId>) {
    match p {
        None => {
            io::write_all(1, b" -");
        }
        Some(node) => number(node.0),
    }
}

fn replicas(h: Holders) {
    let count = h.count;
    if 8 < count {
        return;
    }
    io::write_all(1, b" replicas");
    for row in &h.items[..count] {
        number(row.node.0);
        io::write_all(1, b":");
        io::print_decimal(1, row.incarnation);
    }
}

fn in_sync(s: InSync) {
    let count = s.count;
    if 8 < count {
        return;
    }
    io::write_all(1, b" sync");
    for id in &s.items[..count] {
        number(id.0);
    }
}

fn shard(row: ShardRow) {
    io::write_all(1, b"shard");
    let k = row.key;
    key(k);
    number(row.epoch.0);
    let p = row.primary;
    primary(p);
    let h = row.replicas;
    replicas(h);
    let s = row.insync;
    in_sync(s);
    io::write_all(1, b"\n");
}

pub fn shards(map: &[u8])
    requires { Few map.now }
{
    let count = num::get8(map, SHARDS_USED) as usize;
    for i in 0..count {
        let row = shard_at(map, SHARDS + SHARD * i);
        shard(row);
    }
}

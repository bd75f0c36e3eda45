// The nodes and the collections of a map, a line for each row of its image.
ghost use Rattle.std.specs.Prelude.{◌≤◌};
ghost use Rattle.image_map_put.specs.Few.{Few};

use crate::words::{byte, name};
use image_map_check::layout::{COLLECTION, COLLECTIONS, COLLECTIONS_USED, NODE, NODES, NODES_USED};
use image_map_row::collections::collection_at;
use image_map_row::nodes::node_at;
use map_tables::{Address, CollectionRow, NodeRow};
use spec::Metric;
use test_lines::words::number;

fn address_bytes(a: Address, n: usize)
    requires { n ≤ 64 }
{
    for b in &a.bytes[..n] {
        byte(*b);
    }
}

// `-` where it is empty. None is longer than 64 bytes in a map that passes the 24 test.
fn address(a: Address) {
    let n = a.len;
    if n == 0 {
        io::write_all(1, b" -");
        return;
    }
    if 64 < n {
        return;
    }
    io::write_all(1, b" ");
    address_bytes(a, n);
}

fn status(alive: bool) {
    if alive {
        io::write_all(1, b" alive");
        return;
    }
    io::write_all(1, b" dead");
}

fn node(row: NodeRow) {
    io::write_all(1, b"node");
    number(row.node.0);
    number(row.incarnation);
    status(row.alive);
    let a = row.address;
    address(a);
    io::write_all(1, b"\n");
}

pub fn nodes(map: &[u8])
    requires { Few map.now }
{
    let count = num::get8(map, NODES_USED) as usize;
    for i in 0..count {
        let row = node_at(map, NODES + NODE * i);
        node(row);
    }
}

fn metric(m: Metric) {
    match m {
        Metric::Euclidean => number(0),
        Metric::Angular => number(1),
    }
}

fn collection(row: CollectionRow) {
    io::write_all(1, b"collection");
    let x = row.name;
    name(x);
    let spec = row.spec;
    number(spec.dimension as u64);
    let m = spec.metric;
    metric(m);
    number(spec.shards as u64);
    number(spec.replication as u64);
    io::write_all(1, b"\n");
}

pub fn collections(map: &[u8])
    requires { Few map.now }
{
    let count = num::get8(map, COLLECTIONS_USED) as usize;
    for i in 0..count {
        let row = collection_at(map, COLLECTIONS + COLLECTION * i);
        collection(row);
    }
}

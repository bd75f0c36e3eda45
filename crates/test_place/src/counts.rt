// How many placements pass: by the call, and where they are few by asking Create's own code of each.
use calls_parts::named::key_named;
use image_map_check::formed::is_formed;
use image_map_check::lent::is_lent;
use map_tables::Spec;
use spec::Metric;
use test_count::walk;
use test_lines::parts::first;
use test_lines::words::{line, number, word};
use wire_write::fit::text_fits;

// The six counts as bytes, from the buffer's start on.
fn six_line(w: &[u8], counts: &[u8; 48]) {
    word(w);
    number(num::get8(counts, 0));
    number(num::get8(counts, 8));
    number(num::get8(counts, 16));
    number(num::get8(counts, 24));
    number(num::get8(counts, 32));
    number(num::get8(counts, 40));
    word(b"\n");
}

// All there are: together the six cover them.
fn total_of(counts: &[u8; 48]) -> u64 {
    let a = std::num::wrapping_add_u64(num::get8(counts, 0), num::get8(counts, 8));
    let b = std::num::wrapping_add_u64(num::get8(counts, 16), num::get8(counts, 24));
    let c = std::num::wrapping_add_u64(num::get8(counts, 32), num::get8(counts, 40));
    std::num::wrapping_add_u64(std::num::wrapping_add_u64(a, b), c)
}

// Each placement asked of Create.
fn walked(map: &[u8], name: &[u8], spec: Spec, ids: &[u8], each: u64, total: u64) {
    if !text_fits(name, 32) {
        return;
    }
    if !is_lent(map) {
        return;
    }
    if !is_formed(map) {
        return;
    }
    let key = key_named(name, 0);
    let w = walk(map, key.collection, spec, ids, each, total);
    word(b"walked");
    number(w.accepted);
    number(w.two);
    number(w.three);
    number(w.four);
    number(w.five);
    number(w.full);
    word(b"\n");
}

fn wide(x: u8) -> usize {
    x as usize
}

// Dimension, shards, replication, lists and nodes, u32 each; the length of the ids u8, the ids, and the name.
pub fn count(map: &[u8], s: &[u8]) {
    if s.len() < 21 {
        line(b"refused", 21);
        return;
    }
    let k = wide(s[20]);
    let rest = &s[21..];
    if rest.len() < k {
        line(b"refused", 21);
        return;
    }
    counted(map, s, first(rest, k), &rest[k..]);
}

fn counted(map: &[u8], s: &[u8], ids: &[u8], name: &[u8]) {
    if s.len() < 21 {
        return;
    }
    let dimension = num::get4(s, 0);
    let shards = num::get4(s, 4);
    let replication = num::get4(s, 8);
    let nodes = num::get4(s, 16);
    let mut counts = [0u8; 48];
    let n = calls_count::count_placements(
        map,
        name,
        dimension,
        shards,
        replication,
        ids,
        num::get4(s, 12),
        nodes,
        &mut counts,
    );
    if n != 0 {
        line(b"refused", n as u64);
        return;
    }
    six_line(b"counted", &counts);
    let total = total_of(&counts);
    if 30000 < total {
        return;
    }
    // of at most one list: the empty placement, and a placement for each list
    calls_count::count_placements(
        map,
        name,
        dimension,
        shards,
        replication,
        ids,
        1,
        nodes,
        &mut counts,
    );
    let spec = Spec {
        dimension: dimension,
        metric: Metric::Euclidean,
        shards: shards,
        replication: replication,
    };
    walked(
        map,
        name,
        spec,
        ids,
        std::num::wrapping_sub_u64(total_of(&counts), 1),
        total,
    );
}

// What each call answers, in lines.
use test_count::answers::{lists, undecodable};
use test_lines::words::{line, word};

// Any number but 0: 1 is none, the others are refusals.
fn nothing(n: u32) {
    if n == 1 {
        word(b"none\n");
        return;
    }
    line(b"refused", n as u64);
}

// How many shards and how many replicas of each.
pub fn place(map: &[u8], s: &[u8]) {
    if s.len() != 8 {
        undecodable();
        return;
    }
    let shards = num::get4(s, 0);
    let replication = num::get4(s, 4);
    let mut list = [0u8; 1024];
    let n = calls_place::place(map, shards, replication, &mut list);
    if n != 0 {
        nothing(n);
        return;
    }
    lists(&list, 0, shards, replication);
}

// The number of a shard, and the name of its collection.
pub fn replacement(map: &[u8], s: &[u8]) {
    if s.len() < 4 {
        undecodable();
        return;
    }
    let shard = num::get4(s, 0);
    let mut answer = [0u8; 8];
    let n = calls_place::replacement(map, &s[4..], shard, &mut answer);
    if n != 0 {
        nothing(n);
        return;
    }
    line(b"node", num::get8(&answer, 0));
}

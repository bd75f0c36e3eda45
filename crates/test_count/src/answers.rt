// What the calls on a map answer, in lines: those that more than one program has.
use test_lines::words::{line, number, word};

pub fn undecodable() {
    line(b"refused", 21);
}

// The map is empty again.
fn empty(map: &mut [u8], s: &[u8]) {
    if s.len() != 0 {
        undecodable();
        return;
    }
    calls_map::empty_map(map);
    word(b"ok\n");
}

// A request, message 01.
fn apply(map: &mut [u8], s: &[u8]) {
    let n = calls_apply::apply(map, s);
    if n == 0 {
        word(b"applied\n");
        return;
    }
    if n < 17 {
        line(b"rejected", n as u64);
        return;
    }
    line(b"refused", n as u64);
}

// The two calls that build a map: 0 empties it, 1 applies a request. Whether it was one of them.
pub fn builds(map: &mut [u8], call: u8, s: &[u8]) -> bool {
    if call == 0 {
        empty(map, s);
        return true;
    }
    if call == 1 {
        apply(map, s);
        return true;
    }
    false
}

// The nodes of one list, from a place on.
fn nodes(lists: &[u8], from: usize, n: usize) {
    let mut at = from;
    for _ in 0..n {
        if lists.len() < 8 {
            return;
        }
        if lists.len() - 8 < at {
            return;
        }
        number(num::get8(lists, at));
        at += 8;
    }
}

// A placement's lists, one after the other, from a place on, and the place behind them. Of 32 placements with a head each none begins past 33,280.
pub fn lists(list: &[u8], from: usize, shards: u32, replication: u32) -> usize {
    line(b"placed", shards as u64);
    let mut at = from;
    for _ in 0..shards {
        if 33280 < at {
            return at;
        }
        word(b"list");
        nodes(list, at, replication as usize);
        word(b"\n");
        at += 8 * (replication as usize);
    }
    at
}

// What each call answers, in lines.
use test_count::answers::{lists, undecodable};
use test_lines::words::{line, word};

// One row, and where the next begins: past the end where there is none.
fn row(list: &[u8], at: usize, shards: u32, replication: u32) -> usize {
    if list.len() < 16 {
        return 33281;
    }
    if list.len() - 16 < at {
        return 33281;
    }
    line(b"node", num::get8(list, at));
    let code = num::get8(list, at + 8);
    if code == 1 {
        word(b"none\n");
        return at + 16;
    }
    if code != 0 {
        line(b"refused", code);
        return at + 16;
    }
    lists(list, at + 16, shards, replication)
}

fn rows(list: &[u8], count: u64, shards: u32, replication: u32) {
    let mut at: usize = 0;
    for _ in 0..count {
        if 33280 < at {
            return;
        }
        let next = row(list, at, shards, replication);
        at = next;
    }
}

// A number of a collection's row in the map, at a place of the row.
fn number_at(map: &[u8], row: u32, at: usize) -> u32 {
    if map.len() < 26536 {
        return 0;
    }
    if 15 < row {
        return 0;
    }
    if 52 < at {
        return 0;
    }
    num::get4(map, 3112 + 56 * (row as usize) + at)
}

// Where the collection stands in its table, and its name.
pub fn losses(map: &[u8], s: &[u8]) {
    if s.len() < 4 {
        undecodable();
        return;
    }
    let row = num::get4(s, 0);
    if 15 < row {
        undecodable();
        return;
    }
    let mut list = [0u8; 33280];
    let mut answer = [0u8; 8];
    let n = calls_losses::place_losses(map, &s[4..], &mut list, &mut answer);
    if n != 0 {
        line(b"refused", n as u64);
        return;
    }
    let count = num::get8(&answer, 0);
    line(b"losses", count);
    let shards = number_at(map, row, 48);
    let replication = number_at(map, row, 52);
    rows(&list, count, shards, replication);
}

// Where a collection stands in its table, and the shards and replication that it has from now on.
pub fn spec(map: &mut [u8], s: &[u8]) {
    if s.len() != 12 {
        undecodable();
        return;
    }
    let row = num::get4(s, 0);
    if 15 < row {
        undecodable();
        return;
    }
    if map.len() < 26536 {
        return;
    }
    let at = 3112 + 56 * (row as usize);
    num::put4(map, at + 48, num::get4(s, 4));
    num::put4(map, at + 52, num::get4(s, 8));
    word(b"ok\n");
}

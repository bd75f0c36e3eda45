// The calls that change nothing: 6 epoch ends, 7 entries from, 8 vector, 9 ids, 10 search, 11 state.

use crate::Held;
use crate::input::{floats_of, long, two};
use crate::shown::{entries, listed, pairs, vector, vectors};
use log_calls::searches::search;
use log_search::answer::Found;
use node_log_reads::Refusal;
use node_log_reads::ends::epoch_ends;
use node_log_reads::vectors::{is_empty, len};
use test_lines::parts::{first_floats, metric_of};
use test_lines::words::{hits, line, number, refused, word};
use wire_read::Message;

// How many entries there are from a place on, at most so many.
fn within(count: usize, start: usize, most: usize) -> usize {
    if count <= start {
        return 0;
    }
    if count - start < most {
        return count - start;
    }
    most
}

// The place of the entry at an offset; 0 is taken for 1. What is past every log stays so.
fn start_of(from: u64) -> usize {
    if from == 0 {
        return 0;
    }
    if 2000 < from {
        return 2000;
    }
    (from - 1) as usize
}

fn entries_from(
    epochs: &[u64],
    offsets: &[u64],
    ids: &[u64],
    codes: &[u8],
    lengths: &[u8],
    floats: &[f32],
    count: usize,
    s: &[u8],
) -> bool {
    if s.len() != 10 {
        return refused(21);
    }
    let most = two(s, 8);
    if 256 < most {
        return refused(21);
    }
    let start = start_of(long(s));
    let n = within(count, start, most);
    line(b"entries", n as u64);
    if 2000 < start {
        return false;
    }
    if 256 < n {
        return false;
    }
    let to = start + n;
    entries(
        epochs, offsets, ids, codes, lengths, floats, count, start, to,
    );
    true
}

// No vector is empty, so that an empty part says that the id has none.
fn vector_by_id(
    epochs: &[u64],
    offsets: &[u64],
    ids: &[u64],
    codes: &[u8],
    lengths: &[u8],
    floats: &[f32],
    keys: &[u64],
    places: &[u64],
    h: Held,
    s: &[u8],
) -> bool {
    if s.len() != 8 {
        return refused(21);
    }
    let id = long(s);
    let v = node_log_reads::vectors::vector(
        epochs, offsets, ids, codes, lengths, floats, keys, places, h.count, h.stored, id,
    );
    if v.len() == 0 {
        return word(b"none\n");
    }
    vector(id, v)
}

fn ends(
    epochs: &[u64],
    offsets: &[u64],
    ids: &[u64],
    codes: &[u8],
    lengths: &[u8],
    floats: &[f32],
    keys: &[u64],
    places: &[u64],
    h: Held,
) -> bool {
    let mut froms = [0u64; 1024];
    let mut last = [0u64; 1024];
    let told = epoch_ends(
        epochs, offsets, ids, codes, lengths, floats, keys, places, h.count, h.stored, &mut froms,
        &mut last,
    );
    match told {
        Ok(n) => pairs(&froms, &last, n),
        Err(x) => refused(x.number()),
    }
}

fn nearest_to(
    epochs: &[u64],
    offsets: &[u64],
    ids: &[u64],
    codes: &[u8],
    lengths: &[u8],
    floats: &[f32],
    keys: &[u64],
    places: &[u64],
    h: Held,
    query: &[f32],
    k: u32,
) -> bool {
    let mut found = [0u64; 1024];
    let mut distances = [0.0f32; 1024];
    let f = search(
        epochs,
        offsets,
        ids,
        codes,
        lengths,
        floats,
        keys,
        places,
        h.count,
        h.stored,
        metric_of(h.metric),
        query,
        k,
        &mut found,
        &mut distances,
    );
    match f {
        Found::Hits(n) => hits(&found, &distances, n),
        Found::Refused(x) => refused(x),
    }
}

fn searched(
    epochs: &[u64],
    offsets: &[u64],
    ids: &[u64],
    codes: &[u8],
    lengths: &[u8],
    floats: &[f32],
    keys: &[u64],
    places: &[u64],
    h: Held,
    s: &[u8],
) -> bool {
    let read = wire_read::decode(s);
    let Message::Search(p) = read else {
        return refused(21);
    };
    let v = p.vector;
    let mut query = [0.0f32; 32];
    if !floats_of(s, v, &mut query) {
        return refused(22);
    }
    let q = first_floats(&query, v.len);
    nearest_to(
        epochs, offsets, ids, codes, lengths, floats, keys, places, h, q, p.k,
    )
}

// How many vectors there are.
fn size(n: Result<usize, Refusal>) {
    match n {
        Ok(n) => number(n as u64),
        Err(x) => {
            refused(x.number());
        }
    }
}

// Whether there are none.
fn emptiness(empty: Result<bool, Refusal>) {
    match empty {
        Ok(true) => {
            word(b" 1\n");
        }
        Ok(false) => {
            word(b" 0\n");
        }
        Err(x) => {
            refused(x.number());
        }
    }
}

// Epoch, metric, last offset.
fn state_line(h: Held) {
    word(b"replica");
    number(h.epoch);
    number(h.metric as u64);
    number(h.count as u64);
}

fn state(
    epochs: &[u64],
    offsets: &[u64],
    ids: &[u64],
    codes: &[u8],
    lengths: &[u8],
    floats: &[f32],
    keys: &[u64],
    places: &[u64],
    h: Held,
) -> bool {
    state_line(h);
    size(len(
        epochs, offsets, ids, codes, lengths, floats, keys, places, h.count, h.stored,
    ));
    emptiness(is_empty(
        epochs, offsets, ids, codes, lengths, floats, keys, places, h.count, h.stored,
    ));
    let count = h.count;
    entries(
        epochs, offsets, ids, codes, lengths, floats, count, 0, count,
    );
    vectors(codes, lengths, floats, keys, places, count, h.stored);
    word(b"end\n")
}

pub fn look(
    epochs: &[u64],
    offsets: &[u64],
    ids: &[u64],
    codes: &[u8],
    lengths: &[u8],
    floats: &[f32],
    keys: &[u64],
    places: &[u64],
    h: Held,
    call: u8,
    s: &[u8],
) -> bool {
    if call == 7 {
        return entries_from(epochs, offsets, ids, codes, lengths, floats, h.count, s);
    }
    if call == 8 {
        return vector_by_id(
            epochs, offsets, ids, codes, lengths, floats, keys, places, h, s,
        );
    }
    if call == 10 {
        return searched(
            epochs, offsets, ids, codes, lengths, floats, keys, places, h, s,
        );
    }
    if s.len() != 0 {
        return refused(21);
    }
    if call == 6 {
        return ends(
            epochs, offsets, ids, codes, lengths, floats, keys, places, h,
        );
    }
    if call == 9 {
        return listed(log_calls::reads::ids(
            epochs, offsets, ids, codes, lengths, floats, keys, places, h.count, h.stored,
        ));
    }
    state(
        epochs, offsets, ids, codes, lengths, floats, keys, places, h,
    )
}

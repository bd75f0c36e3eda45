// What the store holds (paper 01, 'The log'), printed from its columns.

use log_store::components;
use spec::Offset;
use test_lines::words::{line, number, row, word};

// Each epoch with the offset of its last entry, of so many pairs.
pub fn pairs(epochs: &[u64], ends: &[u64], n: usize) -> bool {
    line(b"ends", n as u64);
    for i in 0..n {
        if epochs.len() <= i {
            return false;
        }
        if ends.len() <= i {
            return false;
        }
        io::print_decimal(1, epochs[i]);
        number(ends[i]);
        word(b"\n");
    }
    true
}

// An operation and its id.
fn operation(ids: &[u64], codes: &[u8], i: usize) {
    if ids.len() <= i {
        return;
    }
    if codes.len() <= i {
        return;
    }
    if codes[i] == 1 {
        word(b" put");
    } else {
        word(b" delete");
    }
    number(ids[i]);
}

fn entry(
    epochs: &[u64],
    offsets: &[u64],
    ids: &[u64],
    codes: &[u8],
    lengths: &[u8],
    floats: &[f32],
    count: usize,
    i: usize,
) {
    if epochs.len() <= i {
        return;
    }
    if offsets.len() <= i {
        return;
    }
    word(b"entry");
    number(epochs[i]);
    number(offsets[i]);
    operation(ids, codes, i);
    row(components(codes, lengths, floats, count, Offset(offsets[i])));
    word(b"\n");
}

// The entries from one place up to another.
pub fn entries(
    epochs: &[u64],
    offsets: &[u64],
    ids: &[u64],
    codes: &[u8],
    lengths: &[u8],
    floats: &[f32],
    count: usize,
    from: usize,
    to: usize,
) {
    for i in from..to {
        entry(epochs, offsets, ids, codes, lengths, floats, count, i);
    }
}

// An id with its vector.
pub fn vector(id: u64, components: &[f32]) -> bool {
    word(b"vector");
    number(id);
    row(components);
    word(b"\n")
}

// A row of the table: its vector is that of the entry which its place names.
fn table_row(
    codes: &[u8],
    lengths: &[u8],
    floats: &[f32],
    keys: &[u64],
    places: &[u64],
    count: usize,
    i: usize,
) -> bool {
    if keys.len() <= i {
        return false;
    }
    if places.len() <= i {
        return false;
    }
    vector(
        keys[i],
        components(codes, lengths, floats, count, Offset(places[i])),
    )
}

pub fn vectors(
    codes: &[u8],
    lengths: &[u8],
    floats: &[f32],
    keys: &[u64],
    places: &[u64],
    count: usize,
    stored: usize,
) {
    for i in 0..stored {
        table_row(codes, lengths, floats, keys, places, count, i);
    }
}

// Ids that have a vector.
pub fn listed(ids: &[u64]) -> bool {
    word(b"ids");
    number(ids.len() as u64);
    for id in ids {
        number(*id);
    }
    word(b"\n")
}

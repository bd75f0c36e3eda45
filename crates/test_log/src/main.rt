// Replays the oracle's stored histories of a log (paper 01, 'The log', 'Nearest objects'; shard.rs, ShardReplica): calls on one
// replica on standard input, each a number u8, a length u16 and as many bytes of operands, and what each answers on standard output.
// An unknown call or a record that is cut short ends the program. stdin is oracle/stored/history/chosen.in, full.in, random-1.in,
// random-2.in and random-3.in one after the other, stdout their .out: the answers of the Rust. Append, store, copy, adopt, promote, search and ids
// are crate log_calls' exported calls, epoch ends, vector, len and is_empty crate node_log_reads'; entries are shown from the columns.
#![tactic(auto)]

use input::next_record;
use looks::look;
use moves::{after, changed, make, promote};
use test_lines::parts::first;
use test_lines::words::word;

mod answers;
mod input;
mod looks;
mod moves;
mod shown;

// The replica beside its columns: its metric and epoch, and how many entries and rows are used.
#[derive(Clone, Copy)]
pub struct Held {
    pub metric: u8,
    pub epoch: u64,
    pub count: usize,
    pub stored: usize,
}

// The call changes the columns: 1 append, 2 store, 3 copy, 4 adopt.
fn changes(call: u8) -> bool {
    if call == 0 {
        return false;
    }
    call < 5
}

// A call that leaves the columns as they are.
fn on_call(
    epochs: &[u64; 1024],
    offsets: &[u64; 1024],
    ids: &[u64; 1024],
    codes: &[u8; 1024],
    lengths: &[u8; 1024],
    floats: &[f32; 32768],
    keys: &[u64; 1024],
    places: &[u64; 1024],
    h: Held,
    call: u8,
    s: &[u8],
) -> Held {
    if call == 5 {
        return promote(h, s);
    }
    look(
        epochs, offsets, ids, codes, lengths, floats, keys, places, h, call, s,
    );
    h
}

// A call, 1 to 11, on a replica that is there, and the replica after it. Arrays, not slices: their lengths are then nothing to prove.
fn played(
    epochs: &mut [u64; 1024],
    offsets: &mut [u64; 1024],
    ids: &mut [u64; 1024],
    codes: &mut [u8; 1024],
    lengths: &mut [u8; 1024],
    floats: &mut [f32; 32768],
    keys: &mut [u64; 1024],
    places: &mut [u64; 1024],
    h: Held,
    call: u8,
    s: &[u8],
) -> Held {
    if changes(call) {
        let d = changed(
            epochs, offsets, ids, codes, lengths, floats, keys, places, h, call, s,
        );
        return after(h, d);
    }
    on_call(
        epochs, offsets, ids, codes, lengths, floats, keys, places, h, call, s,
    )
}

// One record, and the replica after it, if there is one. False where the input ends.
fn one(
    epochs: &mut [u64; 1024],
    offsets: &mut [u64; 1024],
    ids: &mut [u64; 1024],
    codes: &mut [u8; 1024],
    lengths: &mut [u8; 1024],
    floats: &mut [f32; 32768],
    keys: &mut [u64; 1024],
    places: &mut [u64; 1024],
    held: &mut Option<Held>,
) -> bool {
    let mut buf = io::large_buffer();
    let Some(r) = next_record(&mut buf) else {
        return false;
    };
    let call = r.call;
    let s = first(&buf, r.n);
    if call == 0 {
        *held = make(*held, s);
        return true;
    }
    let Some(h) = *held else {
        word(b"none\n");
        return true;
    };
    let next = played(
        epochs, offsets, ids, codes, lengths, floats, keys, places, h, call, s,
    );
    *held = Some(next);
    true
}

// Records until the input ends. Nothing says that it does, so there is a bound on how many.
fn main() {
    let mut epochs = [0u64; 1024];
    let mut offsets = [0u64; 1024];
    let mut ids = [0u64; 1024];
    let mut codes = [0u8; 1024];
    let mut lengths = [0u8; 1024];
    let mut floats = [0.0f32; 32768];
    let mut keys = [0u64; 1024];
    let mut places = [0u64; 1024];
    let mut held: Option<Held> = None;
    for _ in 0..1000000u64 {
        if !one(
            &mut epochs,
            &mut offsets,
            &mut ids,
            &mut codes,
            &mut lengths,
            &mut floats,
            &mut keys,
            &mut places,
            &mut held,
        ) {
            return;
        }
    }
}

// Replays the oracle's stored searches (paper 01, 'Nearest objects'): cases one after the other on standard input, each a metric, k,
// a query, and operations that are appended to an empty replica; for each a line `found C` and C lines with an id and the bits of its
// distance, or `refused 22`, on standard output. stdin is oracle/stored/search/chosen.in, random.in and orders.in one after the other, stdout
// their .out: the answers of the Rust. Every append and the search are crate log_calls' exported calls.
#![tactic(auto)]

use input::{floats_in, four, operation, two};
use log_calls::Answer;
use log_calls::appends::append;
use log_calls::searches::search;
use log_search::answer::Found;
use spec::{Epoch, Metric};
use test_lines::parts::{first, first_floats, metric_of};
use test_lines::words::{hits, refused};

mod input;

// What was played: whether all of it was taken, and how many entries and rows there are then.
#[derive(Drop)]
struct Played {
    taken: bool,
    count: usize,
    stored: usize,
}

// Whether an append was taken, and all before it.
fn is_taken(a: Answer, before: bool) -> bool {
    let Answer::Appended(_) = a else {
        return false;
    };
    before
}

// So many operations of standard input, each appended as a Write. None where one does not read.
fn play(
    epochs: &mut [u64],
    offsets: &mut [u64],
    ids: &mut [u64],
    codes: &mut [u8],
    lengths: &mut [u8],
    floats: &mut [f32],
    keys: &mut [u64],
    places: &mut [u64],
    operations: usize,
) -> Option<Played> {
    let mut p = Played {
        taken: true,
        count: 0,
        stored: 0,
    };
    let mut message = [0u8; 184];
    message[0] = 0x23;
    for _ in 0..operations {
        let n = operation(&mut message)?;
        let m = first(&message, n);
        let d = append(
            epochs,
            offsets,
            ids,
            codes,
            lengths,
            floats,
            keys,
            places,
            p.count,
            p.stored,
            Epoch(0),
            m,
        );
        let a = d.answer;
        p.taken = is_taken(a, p.taken);
        p.count = d.count;
        p.stored = d.stored;
    }
    Some(p)
}

// The operations of a case, and its answer's lines. False where they do not read.
fn answer(operations: usize, metric: Metric, k: u32, query: &[f32], inside: bool) -> bool {
    let mut epochs = [0u64; 1024];
    let mut offsets = [0u64; 1024];
    let mut ids = [0u64; 1024];
    let mut codes = [0u8; 1024];
    let mut lengths = [0u8; 1024];
    let mut floats = [0.0f32; 32768];
    let mut keys = [0u64; 1024];
    let mut places = [0u64; 1024];
    let played = play(
        &mut epochs,
        &mut offsets,
        &mut ids,
        &mut codes,
        &mut lengths,
        &mut floats,
        &mut keys,
        &mut places,
        operations,
    );
    let Some(p) = played else {
        return false;
    };
    if !p.taken {
        return refused(22);
    }
    if !inside {
        return refused(22);
    }
    let mut found = [0u64; 1024];
    let mut distances = [0.0f32; 1024];
    let f = search(
        &epochs,
        &offsets,
        &ids,
        &codes,
        &lengths,
        &floats,
        &keys,
        &places,
        p.count,
        p.stored,
        metric,
        query,
        k,
        &mut found,
        &mut distances,
    );
    match f {
        Found::Hits(n) => hits(&found, &distances, n),
        Found::Refused(x) => refused(x),
    }
}

// One case. False where no whole one is left, which ends the program.
fn one() -> bool {
    let mut head = [0u8; 6];
    if io::read_full(0, &mut head) < 6 {
        return false;
    }
    if 1 < head[0] {
        return false;
    }
    let metric = metric_of(head[0]);
    let k = four(&head, 1);
    let n = input::wide(head[5]);
    let mut query = [0.0f32; 32];
    let Some(inside) = floats_in(&mut query, n) else {
        return false;
    };
    let mut tail = [0u8; 2];
    if io::read_full(0, &mut tail) < 2 {
        return false;
    }
    let operations = two(&tail);
    if 1024 < operations {
        return false;
    }
    answer(operations, metric, k, first_floats(&query, n), inside)
}

// Nothing says that an input ends, so there is a bound on how many cases.
fn main() {
    for _ in 0..1000000u64 {
        if !one() {
            return;
        }
    }
}

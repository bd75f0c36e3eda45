// For bench/rust: one replica's calls behind C functions. It says nothing of them; that is log_calls'.
#![tactic(auto)]

use log_calls::Answer;
use log_calls::adopts::adopt;
use log_calls::appends::append;
use log_calls::fits::lent_fits;
use log_calls::searches::search;
use log_search::answer::Found;
use spec::{Epoch, Metric};

fn metric_of(angular: bool) -> Metric {
    if angular {
        return Metric::Angular;
    }
    Metric::Euclidean
}

// The 24 test alone.
#[unsafe(no_mangle)]
pub extern "C" fn engine_store_test(
    epochs: &[u64],
    offsets: &[u64],
    ids: &[u64],
    codes: &[u8],
    lengths: &[u8],
    floats: &[f32],
    keys: &[u64],
    places: &[u64],
    count: usize,
    stored: usize,
) -> bool {
    lent_fits(
        epochs, offsets, ids, codes, lengths, floats, keys, places, count, stored,
    )
}

// How many neighbours were found, or a number from 2,000 on for a refusal.
#[unsafe(no_mangle)]
pub extern "C" fn engine_search(
    epochs: &[u64],
    offsets: &[u64],
    ids: &[u64],
    codes: &[u8],
    lengths: &[u8],
    floats: &[f32],
    keys: &[u64],
    places: &[u64],
    count: usize,
    stored: usize,
    angular: bool,
    query: &[f32],
    k: u32,
    found: &mut [u64],
    distances: &mut [f32],
) -> u64 {
    let metric = metric_of(angular);
    let r = search(
        epochs, offsets, ids, codes, lengths, floats, keys, places, count, stored, metric, query,
        k, found, distances,
    );
    match r {
        Found::Hits(n) => n as u64,
        Found::Refused(x) => 2000 + (x as u64),
    }
}

// How many rows the table has after the append of a Write message, or 2,000 for a refusal.
#[unsafe(no_mangle)]
pub extern "C" fn engine_append(
    epochs: &mut [u64],
    offsets: &mut [u64],
    ids: &mut [u64],
    codes: &mut [u8],
    lengths: &mut [u8],
    floats: &mut [f32],
    keys: &mut [u64],
    places: &mut [u64],
    count: usize,
    stored: usize,
    own: u64,
    message: &[u8],
) -> u64 {
    let r = append(
        epochs,
        offsets,
        ids,
        codes,
        lengths,
        floats,
        keys,
        places,
        count,
        stored,
        Epoch(own),
        message,
    );
    let a = r.answer;
    if matches!(a, Answer::Appended(_)) {
        return r.stored as u64;
    }
    2000
}

// How many entries a NewEpoch message leaves, times 2,048, with how many rows the table has then; 0 for a refusal.
#[unsafe(no_mangle)]
pub extern "C" fn engine_adopt(
    epochs: &[u64],
    offsets: &[u64],
    ids: &[u64],
    codes: &[u8],
    lengths: &[u8],
    floats: &[f32],
    keys: &mut [u64],
    places: &mut [u64],
    count: usize,
    stored: usize,
    own: u64,
    message: &[u8],
) -> u64 {
    let r = adopt(
        epochs,
        offsets,
        ids,
        codes,
        lengths,
        floats,
        keys,
        places,
        count,
        stored,
        Epoch(own),
        message,
    );
    let a = r.answer;
    let kept = r.count;
    let rows = r.stored;
    if !matches!(a, Answer::Adopted(_)) {
        return 0;
    }
    if 1024 < kept {
        return 0;
    }
    if 1024 < rows {
        return 0;
    }
    (kept * 2048 + rows) as u64
}

// The calls that change the replica: 0 make, 1 append, 2 store, 3 copy, 4 adopt, 5 promote.

use crate::Held;
use crate::answers::answer;
use crate::input::long;
use log_calls::Done;
use log_calls::adopts::adopt;
use log_calls::appends::append;
use log_calls::arrives::{copy, store};
use spec::Epoch;
use test_lines::words::{refused, word};

// An empty replica, in place of the one held. The columns stay: none of their places is used then.
pub fn make(held: Option<Held>, s: &[u8]) -> Option<Held> {
    if s.len() != 9 {
        refused(21);
        return held;
    }
    let metric = s[8];
    if 1 < metric {
        refused(21);
        return held;
    }
    word(b"ok\n");
    Some(Held {
        metric,
        epoch: long(s),
        count: 0,
        stored: 0,
    })
}

pub fn promote(h: Held, s: &[u8]) -> Held {
    if s.len() != 8 {
        refused(21);
        return h;
    }
    word(b"ok\n");
    let epoch = log_calls::reads::promote(Epoch(h.epoch), Epoch(long(s)));
    Held {
        metric: h.metric,
        epoch: epoch.0,
        count: h.count,
        stored: h.stored,
    }
}

// A call's line, and the replica after it.
pub fn after(h: Held, d: Done) -> Held {
    let a = d.answer;
    answer(a);
    let epoch = d.epoch;
    Held {
        metric: h.metric,
        epoch: epoch.0,
        count: d.count,
        stored: d.stored,
    }
}

// 1 to 4, each by itself: over so many columns one call a function is proved quickest.
fn appended(
    epochs: &mut [u64; 1024],
    offsets: &mut [u64; 1024],
    ids: &mut [u64; 1024],
    codes: &mut [u8; 1024],
    lengths: &mut [u8; 1024],
    floats: &mut [f32; 32768],
    keys: &mut [u64; 1024],
    places: &mut [u64; 1024],
    h: Held,
    s: &[u8],
) -> Done {
    let own = Epoch(h.epoch);
    append(
        epochs, offsets, ids, codes, lengths, floats, keys, places, h.count, h.stored, own, s,
    )
}

fn stored_one(
    epochs: &mut [u64; 1024],
    offsets: &mut [u64; 1024],
    ids: &mut [u64; 1024],
    codes: &mut [u8; 1024],
    lengths: &mut [u8; 1024],
    floats: &mut [f32; 32768],
    keys: &mut [u64; 1024],
    places: &mut [u64; 1024],
    h: Held,
    s: &[u8],
) -> Done {
    let own = Epoch(h.epoch);
    store(
        epochs, offsets, ids, codes, lengths, floats, keys, places, h.count, h.stored, own, s,
    )
}

fn copied(
    epochs: &mut [u64; 1024],
    offsets: &mut [u64; 1024],
    ids: &mut [u64; 1024],
    codes: &mut [u8; 1024],
    lengths: &mut [u8; 1024],
    floats: &mut [f32; 32768],
    keys: &mut [u64; 1024],
    places: &mut [u64; 1024],
    h: Held,
    s: &[u8],
) -> Done {
    let own = Epoch(h.epoch);
    copy(
        epochs, offsets, ids, codes, lengths, floats, keys, places, h.count, h.stored, own, s,
    )
}

fn adopted(
    epochs: &mut [u64; 1024],
    offsets: &mut [u64; 1024],
    ids: &mut [u64; 1024],
    codes: &mut [u8; 1024],
    lengths: &mut [u8; 1024],
    floats: &mut [f32; 32768],
    keys: &mut [u64; 1024],
    places: &mut [u64; 1024],
    h: Held,
    s: &[u8],
) -> Done {
    let own = Epoch(h.epoch);
    adopt(
        epochs, offsets, ids, codes, lengths, floats, keys, places, h.count, h.stored, own, s,
    )
}

// Append, store, copy or adopt.
pub fn changed(
    epochs: &mut [u64; 1024],
    offsets: &mut [u64; 1024],
    ids: &mut [u64; 1024],
    codes: &mut [u8; 1024],
    lengths: &mut [u8; 1024],
    floats: &mut [f32; 32768],
    keys: &mut [u64; 1024],
    places: &mut [u64; 1024],
    h: Held,
    call: u8,
    s: &[u8],
) -> Done {
    if call == 1 {
        return appended(
            epochs, offsets, ids, codes, lengths, floats, keys, places, h, s,
        );
    }
    if call == 2 {
        return stored_one(
            epochs, offsets, ids, codes, lengths, floats, keys, places, h, s,
        );
    }
    if call == 3 {
        return copied(
            epochs, offsets, ids, codes, lengths, floats, keys, places, h, s,
        );
    }
    adopted(
        epochs, offsets, ids, codes, lengths, floats, keys, places, h, s,
    )
}

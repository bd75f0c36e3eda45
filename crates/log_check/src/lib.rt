// The test of a lent store (paper 01, 'Who is turned down', 24): each clause that speaks of a store, and nothing else. Every call
// that touches a log makes it first, so it takes time in proportion to the log: the floats are tested several at once, and the
// table is compared with the log without playing it.
#![tactic(auto)]

mod entries;
mod hints;
mod rows;
mod settled;

ghost use Rattle.std.specs.Prelude.{◌≡◌};
ghost use Rattle.log_store.specs.Store.{lent, Sized, well_formed_store};
ghost use Rattle.log_store.specs.View.{columns};

// Internal: whether the lent store is well formed (24 if not).
pub fn well_formed(
    epochs: &[u64],
    offsets: &[u64],
    ids: &[u64],
    codes: &[u8],
    lengths: &[u8],
    floats: &[f32],
    keys: &[u64],
    places: &[u64],
    count: usize,
    stored: usize,
) -> bool
    requires { Sized (lent (columns epochs.now offsets.now ids.now codes.now lengths.now floats.now) keys.now places.now count stored) }
    ensures { result ≡ well_formed_store (lent (columns epochs.now offsets.now ids.now codes.now lengths.now floats.now)
        keys.now places.now count stored) }
{
    if 1024 < count {
        return false;
    }
    if 1024 < stored {
        return false;
    }
    if floats.len() < 32768 {
        return false;
    }
    if !entries::entries_fit(offsets, codes, lengths, floats, count) {
        return false;
    }
    settled::table_played(offsets, ids, codes, keys, places, count, stored)
}

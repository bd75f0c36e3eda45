// The test of a lent store (paper 01, 'Who is turned down', 24), whatever the lengths of its columns are.

ghost use Rattle.std.specs.Prelude.{◌≡◌};
ghost use Rattle.log_store.specs.View.{columns};
ghost use Rattle.log_store.specs.Store.{lent};
ghost use Rattle.log_calls.specs.Fits.{all_whole, lent_fits};

// Internal: whether seven lengths are 1,024.
fn all_whole(a: usize, b: usize, c: usize, d: usize, e: usize, f: usize, g: usize) -> bool
    ensures { result ≡ all_whole a b c d e f g }
{
    if a != 1024 {
        return false;
    }
    if b != 1024 {
        return false;
    }
    if c != 1024 {
        return false;
    }
    if d != 1024 {
        return false;
    }
    if e != 1024 {
        return false;
    }
    if f != 1024 {
        return false;
    }
    g == 1024
}

// Whether eight columns are a store (24 if not): every column but the floats has 1,024 places, and the store is well formed.
pub fn lent_fits(
    epochs: &[u64],
    offsets: &[u64],
    ids: &[u64],
    codes: &[u8],
    lengths: &[u8],
    floats: &[f32],
    keys: &[u64],
    places: &[u64],
    count: usize,
    stored: usize,
) -> bool
    ensures { result ≡ lent_fits (lent (columns epochs.now offsets.now ids.now codes.now lengths.now floats.now)
        keys.now places.now count stored) }
{
    if !all_whole(
        epochs.len(),
        offsets.len(),
        ids.len(),
        codes.len(),
        lengths.len(),
        keys.len(),
        places.len(),
    ) {
        return false;
    }
    log_check::well_formed(
        epochs, offsets, ids, codes, lengths, floats, keys, places, count, stored,
    )
}

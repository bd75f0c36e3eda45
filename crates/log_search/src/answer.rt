// What a search answers (paper 01, 'Nearest objects', 'Who is turned down'), and its hits in two lent columns.

ghost use Rattle.std.specs.Prelude.{◌≡◌, true, min, length};
ghost use Rattle.spec.specs.Node.WellFormed.{well_formed_vector};
ghost use Rattle.log_store.specs.View.{columns};
ghost use Rattle.log_store.specs.Store.{lent, Sized, well_formed_store};
ghost use Rattle.log_search.specs.Search.{search_store, Searched};

use spec::Metric;

// What a search found: how many neighbours, or the number of its refusal.
#[derive(Clone, Copy)]
pub enum Found {
    Hits(usize),
    Refused(u8),
}

// Internal: the lesser of two numbers.
pub fn least(a: usize, b: usize) -> usize
    ensures { result ≡ min a b }
{
    if a < b {
        return a;
    }
    b
}

// Internal: the search over a store that passed its test (24), by a query that passed its own (22). The room is that of
// the shorter output; 23 if it is short of the answer.
pub fn search_tested(
    epochs: &[u64],
    offsets: &[u64],
    ids: &[u64],
    codes: &[u8],
    lengths: &[u8],
    floats: &[f32],
    keys: &[u64],
    places: &[u64],
    count: usize,
    stored: usize,
    metric: Metric,
    query: &[f32],
    k: u32,
    found: &mut [u64],
    distances: &mut [f32],
) -> Found
    requires { (Sized (lent (columns epochs.now offsets.now ids.now codes.now lengths.now floats.now) keys.now places.now count stored))
        × (well_formed_store (lent (columns epochs.now offsets.now ids.now codes.now lengths.now floats.now) keys.now places.now count stored) ≡ true)
        × (well_formed_vector query.now ≡ true) }
    ensures { Searched (search_store (lent (columns epochs.now offsets.now ids.now codes.now lengths.now floats.now) keys.now places.now count stored)
        metric query.now k (min (length found.old) (length distances.old))) result
        found.old found.new distances.old distances.new }
{
    let most = least(k as usize, 1024);
    let h = super::first::nearest(
        epochs, offsets, ids, codes, lengths, floats, keys, places, count, stored, metric, query,
        most,
    );
    let n = h.count;
    if least(found.len(), distances.len()) < n {
        return Found::Refused(23);
    }
    log_select::write::write_hits(h, found, distances);
    Found::Hits(n)
}

// Nearest objects (paper 01, 'Nearest objects'; shard.rs, search): the exported search over one replica's lent store.

ghost use Rattle.std.specs.Prelude.{min, length};
ghost use Rattle.log_search.specs.Search.{Searched};
ghost use Rattle.log_store.specs.View.{columns};
ghost use Rattle.log_store.specs.Store.{lent};
ghost use Rattle.log_calls.specs.Fits.{search_lent};

use log_search::answer::Found;
use spec::Metric;

// The first min(k, stored) of the order, ids into one lent column and distances into another; the room is that of the shorter. 22 a
// query outside the domain, 24, 23 if the room is short of the answer; a refusal writes nothing.
pub fn search(
    epochs: &[u64],
    offsets: &[u64],
    ids: &[u64],
    codes: &[u8],
    lengths: &[u8],
    floats: &[f32],
    keys: &[u64],
    places: &[u64],
    count: usize,
    stored: usize,
    metric: Metric,
    query: &[f32],
    k: u32,
    found: &mut [u64],
    distances: &mut [f32],
) -> Found
    ensures { Searched (search_lent (lent (columns epochs.now offsets.now ids.now codes.now lengths.now floats.now) keys.now places.now count stored)
        metric query.now k (min (length found.old) (length distances.old))) result
        found.old found.new distances.old distances.new }
{
    if !log_search::query::query_fits(query) {
        return Found::Refused(22);
    }
    if !super::fits::lent_fits(
        epochs, offsets, ids, codes, lengths, floats, keys, places, count, stored,
    ) {
        return Found::Refused(24);
    }
    log_search::answer::search_tested(
        epochs, offsets, ids, codes, lengths, floats, keys, places, count, stored, metric, query,
        k, found, distances,
    )
}

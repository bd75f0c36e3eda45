// Search (paper 01, 'Nearest objects'; shard.rs, search): the stored vectors in the order of their distance to a query,
// kept as neighbours.

ghost use Rattle.std.specs.Prelude.{◌≡◌, true, ◌≤◌, length, take};
ghost use Rattle.spec.specs.Nearest.Distance.{Bounded};
ghost use Rattle.spec.specs.Nearest.Search.{hits};
ghost use Rattle.log_store.specs.View.{columns};
ghost use Rattle.log_store.specs.Table.{rows_of, vectors_of};
ghost use Rattle.log_store.specs.Store.{lent, store_log, Sized, well_formed_store};

use log_select::select::Hits;
use spec::Metric;

// Internal: the first k of the stored vectors, in order.
pub fn nearest(
    epochs: &[u64],
    offsets: &[u64],
    ids: &[u64],
    codes: &[u8],
    lengths: &[u8],
    floats: &[f32],
    keys: &[u64],
    places: &[u64],
    count: usize,
    stored: usize,
    metric: Metric,
    query: &[f32],
    k: usize,
) -> Hits
    requires { (Sized (lent (columns epochs.now offsets.now ids.now codes.now lengths.now floats.now) keys.now places.now count stored))
        × (well_formed_store (lent (columns epochs.now offsets.now ids.now codes.now lengths.now floats.now) keys.now places.now count stored) ≡ true)
        × Bounded query.now × (k ≤ 1024) }
    ensures { (length result.items ≡ 1025) × (result.count ≤ k) × (take result.count result.items
        ≡ hits metric query.now (vectors_of (store_log (lent (columns epochs.now offsets.now ids.now codes.now lengths.now floats.now) keys.now places.now count stored))
        (rows_of keys.now places.now stored)) k) }
{
    let qnorm = float_distance::sums::norm(query);
    let kind = float_distance::sums::kind_of(metric);
    let mut xs = [0.0f32; 1024];
    super::column::fill(
        codes, lengths, floats, places, count, stored, metric, query, qnorm, &mut xs,
    );
    log_select::select::choose(keys, &xs, stored, kind, k)
}

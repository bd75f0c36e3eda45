// Search over a store's bytes (paper 01, 'Nearest objects'; shard.rs, search).

ghost use Rattle.std.specs.Prelude.{◌≡◌, true, ◌≤◌};
ghost use Rattle.spec.specs.Nearest.Distance.{Bounded};
ghost use Rattle.image_store.specs.Image.{well_formed_image};
ghost use Rattle.image_store_check.specs.Test.{Stands};
ghost use Rattle.image_store_search.specs.Nearest.{NearestIn};

use crate::column::{fill, read_words};
use image_store_check::columns::KEYS;
use log_select::select::{Hits, choose};
use spec::Metric;

// The first k of the stored vectors, in order, of a store that passed its test (24).
pub fn nearest(
    s: &[u8],
    base: usize,
    count: usize,
    stored: usize,
    metric: Metric,
    query: &[f32],
    k: usize,
) -> Hits
    requires { Stands s.now base × (well_formed_image s.now base count stored ≡ true) × Bounded query.now × (k ≤ 1024) }
    ensures { NearestIn s.now base count stored metric query.now k result }
{
    let qnorm = float_distance::sums::norm(query);
    let kind = float_distance::sums::kind_of(metric);
    let mut ids = [0u64; 1024];
    read_words(s, base + KEYS, &mut ids);
    let mut xs = [0.0f32; 1024];
    fill(s, base, stored, metric, query, qnorm, &mut xs);
    choose(&ids, &xs, stored, kind, k)
}

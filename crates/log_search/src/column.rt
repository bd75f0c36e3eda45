// The column that a search works over (paper 01, 'Nearest objects'): for each stored vector its distance, or the sum whose
// root that is. Vectors as long as the query are taken four at a time.

ghost use Rattle.std.specs.Prelude.{◌≡◌, true, ◌-◌, ◌*◌, ◌≤◌, ◌<◌, length};
ghost use Rattle.float_distance.specs.Lanes.{Measurable};
ghost use Rattle.log_search.specs.Column.{FourRough, Whole, FourWhole, Walkable, Filled};

use float_distance::four::Four;
use spec::{Metric, Offset};

// Internal: the elements of four vectors of n floats, in step.
fn rough_four(
    metric: Metric,
    query: &[f32],
    qnorm: f32,
    floats: &[f32],
    p: usize,
    q: usize,
    r: usize,
    s: usize,
    n: usize,
) -> Four
    requires { Measurable query.now qnorm floats.now p q r s n }
    ensures { FourRough metric query.now floats.now p q r s n result }
{
    match metric {
        Metric::Euclidean => float_distance::four::squares_four(query, floats, p, q, r, s, n),
        Metric::Angular => {
            float_distance::four::distances_four(
                Metric::Angular,
                query,
                qnorm,
                floats,
                p,
                q,
                r,
                s,
                n,
            )
        }
    }
}

// Internal: whether the entry at an offset is an Upsert of n floats.
fn is_whole(codes: &[u8], lengths: &[u8], count: usize, offset: u64, n: usize) -> bool
    requires { (count ≤ length codes.now) × (count ≤ length lengths.now) }
    ensures { result ≡ true → Whole codes.now lengths.now count offset n }
{
    if offset == 0 {
        return false;
    }
    let at = (offset - 1) as usize;
    if count <= at {
        return false;
    }
    if codes[at] != 1 {
        return false;
    }
    lengths[at] as usize == n
}

// Internal: whether the entries of the four rows from i on are. None are if fewer rows are left.
fn four_whole(
    codes: &[u8],
    lengths: &[u8],
    places: &[u64],
    count: usize,
    stored: usize,
    i: usize,
    n: usize,
) -> bool
    requires { (count ≤ length codes.now) × (count ≤ length lengths.now) × (stored ≤ length places.now) × (i < 1024) }
    ensures { result ≡ true → FourWhole codes.now lengths.now places.now count stored i n }
{
    if stored < i + 4 {
        return false;
    }
    if !is_whole(codes, lengths, count, places[i], n) {
        return false;
    }
    if !is_whole(codes, lengths, count, places[i + 1], n) {
        return false;
    }
    if !is_whole(codes, lengths, count, places[i + 2], n) {
        return false;
    }
    is_whole(codes, lengths, count, places[i + 3], n)
}

// Internal: where the floats of an entry begin.
fn start_of(offset: u64) -> usize
    requires { (0 < offset) × (offset ≤ 1024) }
    ensures { result ≡ (offset - 1) * 32 }
{
    (offset - 1) as usize * 32
}

// Internal: the elements of the vectors that the rows of the table name.
pub fn fill(
    codes: &[u8],
    lengths: &[u8],
    floats: &[f32],
    places: &[u64],
    count: usize,
    stored: usize,
    metric: Metric,
    query: &[f32],
    qnorm: f32,
    xs: &mut [f32],
)
    requires { Walkable codes.now lengths.now floats.now places.now count stored query.now qnorm × (stored ≤ length xs.old) }
    ensures { (length xs.new ≡ length xs.old)
        × Filled codes.now lengths.now floats.now count places.now metric query.now xs.new stored }
{
    let n = query.len();
    let mut i: usize = 0;
    // Stays a while: a step is four rows or one, by what the rows hold.
    while i < stored {
        if four_whole(codes, lengths, places, count, stored, i, n) {
            let p = start_of(places[i]);
            let q = start_of(places[i + 1]);
            let r = start_of(places[i + 2]);
            let s = start_of(places[i + 3]);
            let f = rough_four(metric, query, qnorm, floats, p, q, r, s, n);
            xs[i] = f.a;
            xs[i + 1] = f.b;
            xs[i + 2] = f.c;
            xs[i + 3] = f.d;
            i += 4;
        } else {
            let vector = log_store::components(codes, lengths, floats, count, Offset(places[i]));
            xs[i] = float_distance::sums::element(metric, query, qnorm, vector);
            i += 1;
        }
    }
}

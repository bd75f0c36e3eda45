// The columns that a search works over (paper 01, 'Nearest objects'), from a store's bytes: for each stored vector its id, and its distance or
// the sum whose root that is. Vectors as long as the query are taken four at a time.

ghost use Rattle.std.specs.Prelude.{◌≡◌, true, ◌+◌, ◌≤◌, ◌<◌, length, take};
ghost use Rattle.float_distance.specs.Halves.{element_of};
ghost use Rattle.image_store.specs.Image.{words};
ghost use Rattle.image_store_search.specs.Four.{Patterns, vector_at};
ghost use Rattle.image_store_search.specs.Column.{Named, entry_of, start_of, length_of, vector_in, FourLong, Filled};

use crate::four::{elements_four, float_at};
use image_store_check::columns::{FLOATS, LENGTHS, PLACES};
use spec::Metric;

// 1,024 numbers from a position on.
pub fn read_words(s: &[u8], at: usize, out: &mut [u64])
    requires { (at + 8192 ≤ length s.now) × (length out.old ≡ 1024) }
    ensures { out.new ≡ words 8 1024 s.now at }
{
    for i in 0..out.len() {
        out[i] = num::get8(s, at + 8 * i);
    }
}

// n floats from a position on.
fn read_vector(s: &[u8], at: usize, n: usize, out: &mut [f32])
    requires { Patterns s.now at n × (n ≤ length out.old) }
    ensures { (length out.new ≡ length out.old) × (take n out.new ≡ vector_at s.now at n) }
{
    for i in 0..n {
        out[i] = float_at(s, at + 4 * i);
    }
}

// The place of the entry that row i names.
fn entry_of(s: &[u8], base: usize, stored: usize, i: usize) -> usize
    requires { Named s.now base stored × (i < stored) }
    ensures { (result ≡ entry_of s.now base i) × (result < 1024) }
{
    (num::get8(s, base + PLACES + 8 * i) - 1) as usize
}

// How many floats its vector has.
fn length_of(s: &[u8], base: usize, stored: usize, i: usize) -> usize
    requires { Named s.now base stored × (i < stored) }
    ensures { result ≡ length_of s.now base i }
{
    let e = entry_of(s, base, stored, i);
    s[base + LENGTHS + e] as usize
}

// Where their patterns begin.
fn start_of(s: &[u8], base: usize, stored: usize, i: usize) -> usize
    requires { Named s.now base stored × (i < stored) }
    ensures { (result ≡ start_of s.now base i) × (result + 128 ≤ length s.now) }
{
    let e = entry_of(s, base, stored, i);
    base + FLOATS + e * 128
}

// Whether the vectors of the four rows from i on have n floats. None have if fewer rows are left.
fn four_long(s: &[u8], base: usize, stored: usize, i: usize, n: usize) -> bool
    requires { Named s.now base stored × (i < stored) }
    ensures { result ≡ true → FourLong s.now base stored i n }
{
    if stored < i + 4 {
        return false;
    }
    if length_of(s, base, stored, i) != n {
        return false;
    }
    if length_of(s, base, stored, i + 1) != n {
        return false;
    }
    if length_of(s, base, stored, i + 2) != n {
        return false;
    }
    length_of(s, base, stored, i + 3) == n
}

// The element of the vector that row i names, whatever its length.
fn element_of(
    s: &[u8],
    base: usize,
    stored: usize,
    metric: Metric,
    query: &[f32],
    qnorm: f32,
    i: usize,
) -> f32
    requires { Named s.now base stored × (i < stored) }
    ensures { result ≡ element_of metric query.now qnorm (vector_in s.now base i) }
{
    let n = length_of(s, base, stored, i);
    let at = start_of(s, base, stored, i);
    let mut v = [0.0f32; 32];
    read_vector(s, at, n, &mut v);
    float_distance::sums::element(metric, query, qnorm, &v[..n])
}

// The elements of the vectors that the rows name. The query's norm is given.
pub fn fill(
    s: &[u8],
    base: usize,
    stored: usize,
    metric: Metric,
    query: &[f32],
    qnorm: f32,
    xs: &mut [f32],
)
    requires { Named s.now base stored × (length query.now ≤ 32) × (length xs.old ≡ 1024) }
    ensures { (length xs.new ≡ 1024) × Filled s.now base metric query.now qnorm xs.new stored }
{
    let n = query.len();
    let mut i: usize = 0;
    // Stays a while: a cursor that goes on by four rows or by one, as the lengths that it reads say.
    while i < stored {
        if four_long(s, base, stored, i, n) {
            let p = start_of(s, base, stored, i);
            let q = start_of(s, base, stored, i + 1);
            let r = start_of(s, base, stored, i + 2);
            let t = start_of(s, base, stored, i + 3);
            let f = elements_four(metric, query, qnorm, s, p, q, r, t, n);
            xs[i] = f.a;
            xs[i + 1] = f.b;
            xs[i + 2] = f.c;
            xs[i + 3] = f.d;
            i += 4;
        } else {
            xs[i] = element_of(s, base, stored, metric, query, qnorm, i);
            i += 1;
        }
    }
}

// Paper 01, 'Nearest objects': the sums over four stored vectors, in step, from their patterns. Each sum runs from left to right by itself.
// Four components are taken at a time, so that whole parts of a vector are loaded. The patterns begin at the positions p, q, r, t.

ghost use Rattle.std.specs.Prelude.{◌≡◌, ℕ, ◌<◌};
ghost use Rattle.std.specs.Float.{binary32};
ghost use Rattle.std.specs.Float.Ieee.{mul};
ghost use Rattle.spec.specs.Layout.Format.{number_at};
ghost use Rattle.spec.specs.Nearest.Distance.{square};
ghost use Rattle.spec.specs.Node.Wire.{float_of};
ghost use Rattle.image_store_search.specs.Four.{Pattern, Places, Reach, Taken, Sums, OwnSums, SumsOn, OwnOn, FourElements};

use float_distance::four::{Four, Products};
use spec::Metric;

// The float of the pattern at a position.
pub fn float_at(s: &[u8], at: usize) -> f32
    requires { Pattern s.now at }
    ensures { result ≡ float_of (number_at 4 s.now at) }
{
    f32::from_bits(num::get4(s, at))
}

// Four sums of squared differences with the term of component i.
fn squares_on(
    query: &[f32],
    s: &[u8],
    p: usize,
    q: usize,
    r: usize,
    t: usize,
    i: usize,
    sums: Four,
) -> Four
    requires { Reach query.now s.now p q r t i }
    ensures { SumsOn square query.now s.now p q r t i sums result }
{
    let x = query[i];
    let u = x - float_at(s, p + 4 * i);
    let v = x - float_at(s, q + 4 * i);
    let w = x - float_at(s, r + 4 * i);
    let y = x - float_at(s, t + 4 * i);
    Four {
        a: sums.a + u * u,
        b: sums.b + v * v,
        c: sums.c + w * w,
        d: sums.d + y * y,
    }
}

// Four sums of products with the query, and four of the vectors' own, with the terms of component i.
fn products_on(
    query: &[f32],
    s: &[u8],
    p: usize,
    q: usize,
    r: usize,
    t: usize,
    i: usize,
    sums: Products,
) -> Products
    requires { Reach query.now s.now p q r t i }
    ensures { SumsOn (mul binary32) query.now s.now p q r t i sums.query result.query
        × OwnOn s.now p q r t i sums.own result.own }
{
    let dots = sums.query;
    let own = sums.own;
    let x = query[i];
    let u = float_at(s, p + 4 * i);
    let v = float_at(s, q + 4 * i);
    let w = float_at(s, r + 4 * i);
    let y = float_at(s, t + 4 * i);
    let query = Four {
        a: dots.a + x * u,
        b: dots.b + x * v,
        c: dots.c + x * w,
        d: dots.d + x * y,
    };
    let own = Four {
        a: own.a + u * u,
        b: own.b + v * v,
        c: own.c + w * w,
        d: own.d + y * y,
    };
    Products { query, own }
}

// No sum has a term yet.
const NONE: Four = Four {
    a: 0.0,
    b: 0.0,
    c: 0.0,
    d: 0.0,
};

// Sums over n components, each component's terms added by `on`.
fn over<S: Copy, F: Fn(usize, S) -> S>(n: usize, none: S, on: F) -> S
    requires { (i : ℕ) (x : S) → i < n → F.pre on i x }
    ensures { Taken (λ i x y. F.post on i x y) n none result }
{
    let mut sums = none;
    let fours = n / 4;
    for k in 0..fours {
        let i = 4 * k;
        let one = on(i, sums);
        let two = on(i + 1, one);
        let three = on(i + 2, two);
        sums = on(i + 3, three);
    }
    for i in 4 * fours..n {
        sums = on(i, sums);
    }
    sums
}

// The four sums of squared differences over n components.
fn squares_four(query: &[f32], s: &[u8], p: usize, q: usize, r: usize, t: usize, n: usize) -> Four
    requires { Places query.now s.now p q r t n }
    ensures { Sums square query.now s.now p q r t n n result }
{
    over(n, NONE, |i, sums| squares_on(query, s, p, q, r, t, i, sums))
}

// The eight sums over n components.
fn products_four(
    query: &[f32],
    s: &[u8],
    p: usize,
    q: usize,
    r: usize,
    t: usize,
    n: usize,
) -> Products
    requires { Places query.now s.now p q r t n }
    ensures { Sums (mul binary32) query.now s.now p q r t n n result.query × OwnSums s.now p q r t n n result.own }
{
    let none = Products {
        query: NONE,
        own: NONE,
    };
    over(n, none, |i, sums| {
        products_on(query, s, p, q, r, t, i, sums)
    })
}

// The elements of four vectors of n components. The query's norm is given.
pub fn elements_four(
    metric: Metric,
    query: &[f32],
    qnorm: f32,
    s: &[u8],
    p: usize,
    q: usize,
    r: usize,
    t: usize,
    n: usize,
) -> Four
    requires { Places query.now s.now p q r t n }
    ensures { FourElements metric query.now qnorm s.now p q r t n result }
{
    match metric {
        Metric::Euclidean => squares_four(query, s, p, q, r, t, n),
        Metric::Angular => {
            let f = products_four(query, s, p, q, r, t, n);
            let x = f.query;
            let y = f.own;
            Four {
                a: float_distance::sums::angle(x.a, qnorm, y.a),
                b: float_distance::sums::angle(x.b, qnorm, y.b),
                c: float_distance::sums::angle(x.c, qnorm, y.c),
                d: float_distance::sums::angle(x.d, qnorm, y.d),
            }
        }
    }
}

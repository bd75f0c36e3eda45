// Paper 01, 'Nearest objects': the sums over four stored vectors, in step. Each sum runs from left to right by itself;
// taking four at a time keeps the adder busy while one sum waits for its own last addition. Vectors stand in the lent
// floats at the places p, q, r, s, with n floats each.
ghost use Rattle.std.specs.Prelude.{◌≡◌};
ghost use Rattle.std.specs.Float.{binary32};
ghost use Rattle.std.specs.Float.Ieee.{mul};
ghost use Rattle.spec.specs.Nearest.Distance.{square};
ghost use Rattle.float_distance.specs.Lanes.{Places, FourSums, FourOwn, Measurable, FourDistances};

#[derive(Clone, Copy)]
pub struct Four {
    pub a: f32,
    pub b: f32,
    pub c: f32,
    pub d: f32,
}

// What an angular distance is made of: the products with the query, and each vector's own.
#[derive(Clone, Copy)]
pub struct Products {
    pub query: Four,
    pub own: Four,
}

// Internal: four sums of squared differences.
pub fn squares_four(
    query: &[f32],
    floats: &[f32],
    p: usize,
    q: usize,
    r: usize,
    s: usize,
    n: usize,
) -> Four
    requires { Places query.now floats.now p q r s n }
    ensures { FourSums square query.now floats.now p q r s n result }
{
    let mut a = 0.0f32;
    let mut b = 0.0f32;
    let mut c = 0.0f32;
    let mut d = 0.0f32;
    for i in 0..n {
        let x = query[i];
        let u = x - floats[p + i];
        let v = x - floats[q + i];
        let w = x - floats[r + i];
        let y = x - floats[s + i];
        a = a + u * u;
        b = b + v * v;
        c = c + w * w;
        d = d + y * y;
    }
    Four { a, b, c, d }
}

// Internal: four sums of products with the query, and four of the vectors' own, in one pass.
fn products_four(
    query: &[f32],
    floats: &[f32],
    p: usize,
    q: usize,
    r: usize,
    s: usize,
    n: usize,
) -> Products
    requires { Places query.now floats.now p q r s n }
    ensures { FourSums (mul binary32) query.now floats.now p q r s n result.query × FourOwn floats.now p q r s n result.own }
{
    let mut a = 0.0f32;
    let mut b = 0.0f32;
    let mut c = 0.0f32;
    let mut d = 0.0f32;
    let mut e = 0.0f32;
    let mut f = 0.0f32;
    let mut g = 0.0f32;
    let mut h = 0.0f32;
    for i in 0..n {
        let x = query[i];
        let u = floats[p + i];
        let v = floats[q + i];
        let w = floats[r + i];
        let y = floats[s + i];
        a = a + x * u;
        b = b + x * v;
        c = c + x * w;
        d = d + x * y;
        e = e + u * u;
        f = f + v * v;
        g = g + w * w;
        h = h + y * y;
    }
    let dots = Four { a, b, c, d };
    let own = Four {
        a: e,
        b: f,
        c: g,
        d: h,
    };
    Products { query: dots, own }
}

// Internal: the distances of four vectors to the query, whose norm is given.
pub fn distances_four(
    metric: spec::Metric,
    query: &[f32],
    qnorm: f32,
    floats: &[f32],
    p: usize,
    q: usize,
    r: usize,
    s: usize,
    n: usize,
) -> Four
    requires { Measurable query.now qnorm floats.now p q r s n }
    ensures { FourDistances metric query.now floats.now p q r s n result }
{
    match metric {
        spec::Metric::Euclidean => {
            let f = squares_four(query, floats, p, q, r, s, n);
            Four {
                a: super::root::sqrt_f32(f.a),
                b: super::root::sqrt_f32(f.b),
                c: super::root::sqrt_f32(f.c),
                d: super::root::sqrt_f32(f.d),
            }
        }
        spec::Metric::Angular => {
            let f = products_four(query, floats, p, q, r, s, n);
            let x = f.query;
            let y = f.own;
            Four {
                a: super::sums::angle(x.a, qnorm, y.a),
                b: super::sums::angle(x.b, qnorm, y.b),
                c: super::sums::angle(x.c, qnorm, y.c),
                d: super::sums::angle(x.d, qnorm, y.d),
            }
        }
    }
}

// Paper 01, 'Nearest objects': sums from left to right in f32, each operation rounded, and the distances made of them.
// Sums over two vectors end with the shorter; a norm is over its whole vector. All of it is defined on any floats, as the
// source's `distance` is: outside the domain a distance may be an infinity or a NaN.
ghost use Rattle.std.specs.Prelude.{◌≡◌};
ghost use Rattle.std.specs.Float.{binary32};
ghost use Rattle.std.specs.Float.Ieee.{mul};
ghost use Rattle.spec.specs.Nearest.Root.{sqrt};
ghost use Rattle.spec.specs.Nearest.Distance as Distance;
ghost use Rattle.float_distance.specs.Halves.{settled, kind_of, element_of, neighbor_of, distance_given};

// Internal: the sum of the squared differences.
pub fn squares(a: &[f32], b: &[f32]) -> f32
    ensures { result ≡ Distance.squares a.now b.now }
{
    let mut acc = 0.0f32;
    for i in 0..a.len().min(b.len()) {
        let x = a[i];
        let y = b[i];
        let d = x - y;
        acc = acc + d * d;
    }
    acc
}

// Internal: the sum of the products.
// Stays two functions: with a closure for the term, each call would prove what its closure computes, which is longer than this loop.
pub fn dot(a: &[f32], b: &[f32]) -> f32
    ensures { result ≡ Distance.dot a.now b.now }
{
    let mut acc = 0.0f32;
    for i in 0..a.len().min(b.len()) {
        let x = a[i];
        let y = b[i];
        acc = acc + x * y;
    }
    acc
}

// Internal: the root of a vector's own products.
pub fn norm(v: &[f32]) -> f32
    ensures { result ≡ Distance.norm v.now }
{
    super::root::sqrt_f32(dot(v, v))
}

// Internal: the angular distance, from the product of query and vector, the query's norm and the vector's own products.
pub fn angle(product: f32, qnorm: f32, own: f32) -> f32
    ensures { result ≡ Distance.angle product (mul binary32 qnorm (sqrt binary32 own)) }
{
    let d = qnorm * super::root::sqrt_f32(own);
    if d == 0.0 {
        return 1.0;
    }
    1.0 - product / d
}

// What is made of a vector before its distance is asked for: the sum whose root that is, or the distance itself.
#[derive(Clone, Copy)]
pub enum Kind {
    Sums,
    Distances,
}

// Internal: what a metric makes.
pub fn kind_of(metric: spec::Metric) -> Kind
    ensures { result ≡ kind_of metric }
{
    match metric {
        spec::Metric::Euclidean => Kind::Sums,
        spec::Metric::Angular => Kind::Distances,
    }
}

// Internal: the first half of a distance. The query's norm is given, since it serves every vector.
pub fn element(metric: spec::Metric, query: &[f32], qnorm: f32, vector: &[f32]) -> f32
    ensures { result ≡ element_of metric query.now qnorm vector.now }
{
    match metric {
        spec::Metric::Euclidean => squares(query, vector),
        spec::Metric::Angular => angle(dot(query, vector), qnorm, dot(vector, vector)),
    }
}

// Internal: the distance that an element stands for.
pub fn settle(kind: Kind, x: f32) -> f32
    ensures { result ≡ settled kind x }
{
    match kind {
        Kind::Sums => super::root::sqrt_f32(x),
        Kind::Distances => x,
    }
}

// Internal: the second half, and the form of `distance` over a sum already made: an id with the distance that its vector's
// element stands for. Every neighbour that a search keeps was returned here.
pub fn neighbor(id: u64, kind: Kind, x: f32) -> spec::Neighbor
    ensures { result ≡ neighbor_of id kind x }
{
    spec::Neighbor {
        id,
        distance: settle(kind, x),
    }
}

// A vector's id with its distance to the query, whose norm is given (shard.rs, distance). Of any floats: no call is refused.
pub fn distance(
    id: u64,
    metric: spec::Metric,
    query: &[f32],
    qnorm: f32,
    vector: &[f32],
) -> spec::Neighbor
    ensures { result ≡ record { id = id; distance = distance_given metric query.now qnorm vector.now } }
{
    neighbor(id, kind_of(metric), element(metric, query, qnorm, vector))
}

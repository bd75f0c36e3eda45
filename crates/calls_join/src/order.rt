// The order of hits, and of shard numbers (28). All comparisons of hits go through `nearer`, on the patterns of their distances: any pattern has its
// place, and no float is made of it.
ghost use Rattle.std.specs.Prelude.{◌≡◌, ◌+◌, ◌*◌, ◌≤◌, length};
ghost use Rattle.spec.specs.Lists.{rising};
ghost use Rattle.spec_join.specs.Join.{in_order, nearer_hit, shard_below};
ghost use Rattle.calls_join.specs.View.{Stand, answers_at, hit_at, hits_at};

use crate::answers::after;

// Whether the hit at a is nearer than the hit at b, by distance and then by the lower id.
pub fn nearer(s: &[u8], a: usize, b: usize) -> bool
    requires { (a + 12 ≤ length s.now) × (b + 12 ≤ length s.now) }
    ensures { result ≡ nearer_hit (hit_at s.now a) (hit_at s.now b) }
{
    let x = num::get4(s, a + 8);
    let y = num::get4(s, b + 8);
    if x == y {
        return num::get8(s, a) < num::get8(s, b);
    }
    float_order::before_bits(x, y)
}

// Whether none of the n hits from p on is nearer than the one before it.
pub fn in_order(s: &[u8], p: usize, n: usize) -> bool
    requires { p + 12 * n ≤ length s.now }
    ensures { result ≡ in_order (hits_at s.now n p) }
{
    for i in 1..n {
        if nearer(s, p + 12 * i, p + 12 * (i - 1)) {
            return false;
        }
    }
    true
}

// Whether the shard numbers of n answers rise.
pub fn shards_rise(s: &[u8], n: usize) -> bool
    requires { Stand s.now n 0 }
    ensures { result ≡ rising shard_below (answers_at s.now n 0) }
{
    let mut p: usize = 0;
    for _ in 1..n {
        let q = after(s, p);
        if num::get4(s, q) <= num::get4(s, p) {
            return false;
        }
        p = q;
    }
    true
}

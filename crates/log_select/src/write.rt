// Hits written out (paper 01, 'Nearest objects'): a column of their ids and one of their distances.

ghost use Rattle.std.specs.Prelude.{◌≡◌, ◌≤◌, ◌++◌, map, length, take, drop};
ghost use Rattle.log_select.specs.Written.{id_of, distance_of};

use super::select::Hits;

// Internal: the hits written into two lent columns; what lies past them stays as it was.
pub fn write_hits(h: Hits, found: &mut [u64], distances: &mut [f32])
    requires { (h.count ≤ 1024) × (length h.items ≡ 1025) × (h.count ≤ length found.old) × (h.count ≤ length distances.old) }
    ensures { (found.new ≡ map id_of (take h.count h.items) ++ drop h.count found.old)
        × (distances.new ≡ map distance_of (take h.count h.items) ++ drop h.count distances.old) }
{
    let n = h.count;
    for i in 0..n {
        let x = h.items[i];
        found[i] = x.id;
        distances[i] = x.distance;
    }
}

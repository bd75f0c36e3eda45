// The peers of a row, searched where they stand.
ghost use Rattle.std.specs.Prelude.{◌≡◌, ◌+◌, ◌≤◌, length, take};
ghost use Rattle.spec.specs.Lists.{lead};
ghost use Rattle.node_shard.specs.View.{others};
ghost use Rattle.image_header_row.specs.Rows.{peers_at};

// The place of the row of `node` among the first `count`, or `count`.
pub fn place_of(s: &[u8], at: usize, count: usize, node: u64) -> usize
    requires { (at + 1024 ≤ length s.now) × (count ≤ 32) }
    ensures { result ≡ lead (others node) (take count (peers_at s.now at)) }
{
    for i in 0..count {
        if num::get8(s, at + 32 * i) == node {
            return i;
        }
    }
    count
}

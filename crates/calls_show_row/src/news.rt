// Internal: the peers of a row that another row does not know.
ghost use Rattle.std.specs.Prelude.{◌≡◌, ◌+◌, ◌≤◌, length, take};
ghost use Rattle.spec.specs.Lists.{collect};
ghost use Rattle.spec.specs.Node.Client.{node_of};
ghost use Rattle.spec.specs.Node.Shown.{is_new};
ghost use Rattle.image_header_row.specs.Rows.{peers_at, held_row_at};

use image_header_set::peers::place_of;
use wire_put::put::put_bytes;

// How many of the first `count` peers from `to` on are not among the first `was` from `at` on.
pub fn count_new(s: &[u8], at: usize, was: usize, t: &[u8], to: usize, count: usize) -> usize
    requires { (at + 1024 ≤ length s.now) × (was ≤ 32) × (to + 1024 ≤ length t.now) × (count ≤ 32) }
    ensures { result ≡ length (collect (is_new (take was (peers_at s.now at))) node_of (take count (peers_at t.now to))) }
{
    let mut n: usize = 0;
    for i in 0..count {
        if was <= place_of(s, at, was, num::get8(t, to + 32 * i)) {
            n += 1;
        }
    }
    n
}

// A row copied into a buffer of its own.
pub fn copy_row(out: &mut [u8], s: &[u8], at: usize)
    requires { (length out.old ≡ 1280) × (at + 1280 ≤ length s.now) }
    ensures { held_row_at out.new 0 ≡ held_row_at s.now at }
{
    let end = at + 1280;
    put_bytes(out, 0, &s[at..end]);
}

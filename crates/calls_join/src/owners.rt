// Whether each id belongs to the shard that answered (29).
ghost use Rattle.std.specs.Prelude.{◌≡◌, true, ◌+◌, ◌*◌, ◌≤◌, length};
ghost use Rattle.spec_join.specs.Join as join;
ghost use Rattle.calls_join.specs.View.{Stand, answers_at, hits_at};
ghost use Rattle.calls_join.specs.Owners.{own_hits};

use crate::answers::{after, count_at};

// Whether each of the n hits from p on is of this shard.
fn owns(s: &[u8], p: usize, n: usize, shard: u32, shards: u32) -> bool
    requires { p + 12 * n ≤ length s.now }
    ensures { result ≡ own_hits shards shard (hits_at s.now n p) }
{
    for i in 0..n {
        if wire_read::placed::shard_of(num::get8(s, p + 12 * i), shards) != shard {
            return false;
        }
    }
    true
}

// Whether every hit of n answers is.
pub fn all_owned(s: &[u8], n: usize, shards: u32) -> bool
    requires { Stand s.now n 0 }
    ensures { result ≡ join.owned shards (answers_at s.now n 0) }
{
    let mut p: usize = 0;
    for _ in 0..n {
        if !owns(s, p + 6, count_at(s, p), num::get4(s, p), shards) {
            return false;
        }
        p = after(s, p);
    }
    true
}

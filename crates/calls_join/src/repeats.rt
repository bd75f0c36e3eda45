// Whether an id stands twice in one answer (28), at any two places: hits are kept by the remainder of their id, and each id is compared with those of its
// own bucket only. Of the remainder no more is needed than that equal ids have one bucket.
ghost use Rattle.std.specs.Prelude.{◌≡◌, ◌+◌, ◌*◌, ◌≤◌, length};
ghost use Rattle.spec_join.specs.Join as join;
ghost use Rattle.calls_join.specs.View.{hits_at};
ghost use Rattle.calls_join.specs.Buckets.{Falls, Listed};

// Whether `id` is that of a hit of a chain: `from` is the place of its last hit counted from 1, `next` leads from each hit to the one before it in its
// chain, and 0 ends it. All are among the first n hits from p on.
fn listed(s: &[u8], p: usize, next: &[u16], n: usize, from: usize, id: u64) -> bool
    requires { (p + 12 * n ≤ length s.now) × (n ≤ length next.now) × (from ≤ n) × Falls next.now n }
    ensures { Listed s.now p next.now n from id result }
{
    let mut c = from;
    // Stays a while: the chain leads from hit to hit.
    while 0 < c {
        if num::get8(s, p + 12 * (c - 1)) == id {
            return true;
        }
        c = next[c - 1] as usize;
    }
    false
}

pub fn apart(s: &[u8], p: usize, n: usize) -> bool
    requires { (p + 12 * n ≤ length s.now) × (n ≤ 1024) }
    ensures { result ≡ join.apart (hits_at s.now n p) }
{
    let mut last = [0u16; 2048];
    let mut next = [0u16; 1024];
    for i in 0..n {
        let id = num::get8(s, p + 12 * i);
        let b = (id % 2048) as usize;
        let c = last[b];
        if listed(s, p, &next, i, c as usize, id) {
            return false;
        }
        next[i] = c;
        last[b] = (i + 1) as u16;
    }
    true
}

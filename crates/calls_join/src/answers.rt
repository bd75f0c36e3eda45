// Where the answers stand in the lent bytes: a shard, u32, a count, u16, and that many hits of twelve bytes, one answer after the other to the end.
ghost use Rattle.std.specs.Prelude.{◌≡◌, true, ◌+◌, ◌*◌, ◌≤◌, length};
ghost use Rattle.calls_join.specs.View.{Counts, Stand, after_at, answers_at, count_at, stands_at};
ghost use Rattle.spec_join.specs.Join.{all_hits};

// How many hits the answer at p has.
pub fn count_at(s: &[u8], p: usize) -> usize
    requires { p + 6 ≤ length s.now }
    ensures { result ≡ count_at s.now p }
{
    num::get2(s, p + 4) as usize
}

// Whether a whole answer of at most 1,024 hits stands at p.
fn stands(s: &[u8], p: usize) -> bool
    requires { p ≤ length s.now }
    ensures { result ≡ stands_at s.now p }
{
    if s.len() - p < 6 {
        return false;
    }
    let n = count_at(s, p);
    if 1024 < n {
        return false;
    }
    12 * n <= s.len() - p - 6
}

// Where the answer at p ends.
pub fn after(s: &[u8], p: usize) -> usize
    requires { stands_at s.now p ≡ true }
    ensures { result ≡ after_at s.now p }
{
    p + 6 + 12 * count_at(s, p)
}

// How many answers there are; none if the bytes are no whole answers (21).
pub fn count_answers(s: &[u8]) -> Option<usize>
    ensures { Counts s.now result }
{
    let mut n: usize = 0;
    let mut p: usize = 0;
    // Stays a while: each answer tells its own length, which moves p.
    while p < s.len() {
        if !stands(s, p) {
            return None;
        }
        p = after(s, p);
        n += 1;
    }
    Some(n)
}

// How many hits n answers have together.
pub fn total(s: &[u8], n: usize) -> usize
    requires { Stand s.now n 0 × (n ≤ 16) }
    ensures { result ≡ length (all_hits (answers_at s.now n 0)) }
{
    let mut sum: usize = 0;
    let mut p: usize = 0;
    for _ in 0..n {
        sum += count_at(s, p);
        p = after(s, p);
    }
    sum
}

// What comes before joining (paper 02, 2.2): 21, then 28 of all answers, then 29 of all, behind the k-th hit too.
ghost use Rattle.std.specs.Prelude.{◌≡◌, ◌≤◌, min, length};
ghost use Rattle.spec.specs.Lists.{every};
ghost use Rattle.spec_join.specs.Join.{sound_answer, sound};
ghost use Rattle.calls_join.specs.View.{Stand, answers_at};
ghost use Rattle.calls_join.specs.Calls.{Checks};

use crate::Refusal;
use crate::answers::{after, count_answers, count_at, total};
use crate::order::{in_order, shards_rise};
use crate::owners::all_owned;
use crate::repeats::apart;

// Whether each of n answers is in order and has no id twice.
fn each_sound(s: &[u8], n: usize) -> bool
    requires { Stand s.now n 0 }
    ensures { result ≡ every sound_answer (answers_at s.now n 0) }
{
    let mut p: usize = 0;
    for _ in 0..n {
        let count = count_at(s, p);
        if !in_order(s, p + 6, count) {
            return false;
        }
        if !apart(s, p + 6, count) {
            return false;
        }
        p = after(s, p);
    }
    true
}

// Whether n answers are at most 16, of shards that rise, and each is sound (28).
fn all_sound(s: &[u8], n: usize) -> bool
    requires { Stand s.now n 0 }
    ensures { result ≡ sound (answers_at s.now n 0) }
{
    if 16 < n {
        return false;
    }
    if !shards_rise(s, n) {
        return false;
    }
    each_sound(s, n)
}

// How many answers there are and how many hits are to be answered; or which refusal.
pub fn check(shards: u32, k: u32, s: &[u8]) -> Result<(usize, usize), Refusal>
    ensures { Checks shards k s.now result }
{
    let n = count_answers(s).ok_or(Refusal::Undecodable)?;
    if !all_sound(s, n) {
        return Err(Refusal::OutOfOrder);
    }
    if !all_owned(s, n, shards) {
        return Err(Refusal::OtherShard);
    }
    Ok((n, (k as usize).min(total(s, n))))
}

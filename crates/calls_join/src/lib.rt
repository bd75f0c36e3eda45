// The answers of a collection's shards to one query, joined into the first k of the same order (paper 02, 2.2), straight from the lent bytes: each
// is read where it stands, and what is joined is copied once, into the output. What is refused: 21, 28 and 29, all before joining, then 23. What the
// calls answer stands in specs/Calls.antt, and what it is in crate `spec_join`.
#![tactic(auto)]

ghost use Rattle.std.specs.Prelude.{◌≡◌};
ghost use Rattle.calls_join.specs.Calls.{Joins, JoinsFor, code_of};

use crate::checks::check;
use crate::merge::merge;

mod answers;
mod checks;
mod merge;
mod order;
mod owners;
mod repeats;

// Why answers are not joined.
#[derive(Clone, Copy, Debug, PartialEq, Eq)]
pub enum Refusal {
    // The bytes are no whole answers.
    Undecodable,
    // The output is too short for the hits.
    NoRoom,
    // More than 16 answers, shards that don't rise, hits out of order or an id twice.
    OutOfOrder,
    // A hit of another shard than the one that answered.
    OtherShard,
}

// The number that hosts see.
impl From<Refusal> for u32 {
    ghost from_gives = { λ why n. n ≡ code_of why };

    fn from(why: Refusal) -> u32 {
        match why {
            Refusal::Undecodable => 21,
            Refusal::NoRoom => 23,
            Refusal::OutOfOrder => 28,
            Refusal::OtherShard => 29,
        }
    }
}

// How many hits stand in the output.
pub fn join(shards: u32, k: u32, answers: &[u8], out: &mut [u8]) -> Result<usize, Refusal>
    ensures { Joins shards k answers.now out.old out.new result }
{
    let (n, m) = check(shards, k, answers)?;
    if out.len() / 12 < m {
        return Err(Refusal::NoRoom);
    }
    merge(answers, n, m, out);
    Ok(m)
}

// For hosts: the number of the answer, and beside 0 in `answer` how many hits stand in `hits`. 21, 28, 29, 23.
pub fn join_call(shards: u32, k: u32, answers: &[u8], hits: &mut [u8], answer: &mut [u8]) -> u32
    ensures { JoinsFor shards k answers.now hits.old answer.old hits.new answer.new result }
{
    match check(shards, k, answers) {
        Ok((n, m)) => {
            if hits.len() / 12 < m {
                return u32::from(Refusal::NoRoom);
            }
            if answer.len() < 8 {
                return u32::from(Refusal::NoRoom);
            }
            merge(answers, n, m, hits);
            num::put8(answer, 0, m as u64);
            0
        }
        Err(why) => u32::from(why),
    }
}

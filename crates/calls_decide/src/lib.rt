// The first half of apply over a map's image (paper 01, 'The shard map', and 'Who is turned down'): a request is decided from the bytes of a map
// that passed its test, and none is written. Crate calls_apply carries it out.
#![tactic(auto)]

use map_tables::Verdict;

mod answers;
pub mod decided;
mod nodes;

// What a request is answered, with the operands of its text, and whether its command is decided now: if not, it is older, a repetition, or
// of a 65th client.
// Stays a flag beside a verdict: it is no less true where the flag is false, and `apply_words` takes it from both.
#[derive(Drop)]
pub struct Decision {
    pub verdict: Verdict,
    pub fresh: bool,
}

// The numbers that an answer has for a host (paper 01, 'Who is turned down'): 0 done, 1 to 16 rejected, 21 to 25 refused.
ghost use Rattle.std.specs.Prelude.{◌≡◌};
ghost use Rattle.spec.specs.Refusals.{number_of};
ghost use Rattle.spec.specs.Map.Calls.{reason_number};
ghost use Rattle.map_tables.specs.View.{answer_of, refusal_of};

use image_parts::codes::outcome_coded;
use map_tables::{Refusal, Verdict};

// Internal: a refusal's number.
pub fn refusal_number(r: Refusal) -> u32
    ensures { result ≡ number_of (refusal_of r) }
{
    match r {
        Refusal::Undecodable => 21,
        Refusal::NoRoom => 23,
        Refusal::Malformed => 24,
        Refusal::LastEpoch => 25,
    }
}

// Internal: a verdict's number.
pub fn verdict_number(v: Verdict) -> u32
    ensures { result ≡ reason_number (answer_of v) }
{
    let a = v.answer;
    match a {
        Ok(o) => outcome_coded(o).code,
        Err(r) => refusal_number(r),
    }
}

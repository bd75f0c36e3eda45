// What was decided, told and remembered.
ghost use Rattle.std.specs.Prelude.{◌≡◌};
ghost use Rattle.spec.specs.Map.Calls.{reason_number};
ghost use Rattle.map_tables.specs.View.{answer_of};
ghost use Rattle.image_map_put.specs.Few.{Few};
ghost use Rattle.calls_apply.specs.Settles.{Room, Noted, takes_effect};

use crate::remember::remember;
use calls_map::numbers::verdict_number;
use map_tables::{Outcome, SessionRow, Verdict};

// Whether a command that was decided so takes effect.
pub fn takes_effect(verdict: Verdict) -> bool
    ensures { result ≡ takes_effect (answer_of verdict) }
{
    let answer = verdict.answer;
    match answer {
        Ok(outcome) => match outcome {
            Outcome::Applied => true,
            Outcome::Rejected(_) => false,
        },
        Err(_) => false,
    }
}

// An outcome is remembered, and the map written back with the version; a refusal leaves it.
pub fn tell(map: &mut [u8], client: u64, seq: u64, verdict: Verdict, version: u64) -> u32
    requires { Few map.old × Room map.old client seq (answer_of verdict) }
    ensures { (result ≡ reason_number (answer_of verdict)) × Noted map.old client seq map.new (answer_of verdict) version }
{
    let number = verdict_number(verdict);
    let answer = verdict.answer;
    let key = verdict.key;
    match answer {
        Ok(outcome) => {
            let session = SessionRow {
                client: client,
                seq: seq,
                outcome: outcome,
                key: key,
            };
            remember(map, version, session);
            number
        }
        Err(_) => number,
    }
}

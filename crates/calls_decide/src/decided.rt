// What a request is answered on a map that passed its test (24), with nothing changed yet: the one place where a verdict is made.
ghost use Rattle.image_map.specs.Image.{map_at};
ghost use Rattle.map_apply.specs.Decided.{Decided};
ghost use Rattle.calls_decide.specs.Decides.{Ready, Fresh, Known, Decides};

use crate::Decision;
use crate::answers::change_answer;
use crate::nodes::{dead_answer, register_answer};
use image_map_check::layout::{SESSION, SESSIONS, SESSIONS_USED};
use image_map_check::place::session_place;
use image_map_create::answer::create_answer;
use image_map_drop::drop_answer;
use image_map_row::sessions::session_at;
use map_tables::answers::{applied, no_key, refused, rejected};
use map_tables::{Command, Refusal, Rejection, Request, Verdict};

// The command's own answer.
fn own_answer(map: &[u8], r: Request) -> Verdict
    requires { Fresh map.now r }
    ensures { Decided (map_at map.now) r result }
{
    let command = r.command;
    match command {
        Command::Create(spec) => create_answer(map, r.key.collection, spec, r.placement),
        Command::Drop => drop_answer(map, r.key),
        Command::Register(node, incarnation) => register_answer(map, node, incarnation),
        Command::MarkNodeDead(node, incarnation) => dead_answer(map, node, incarnation),
        Command::OfShard(change, epoch) => change_answer(map, r.key, epoch, change),
        Command::Bench => applied(),
    }
}

// A client whose session stands at a place: 1 an older command; an equal seq is told the old outcome again.
fn of_known(map: &[u8], r: Request, place: usize) -> Decision
    requires { Known map.now r place }
    ensures { Decides map.now r result }
{
    let row = session_at(map, SESSIONS + SESSION * place);
    if r.seq < row.seq {
        let verdict = rejected(Rejection::Older, no_key());
        return Decision {
            verdict: verdict,
            fresh: false,
        };
    }
    if r.seq == row.seq {
        let o = row.outcome;
        let key = row.key;
        let verdict = Verdict {
            answer: Ok(o),
            key: key,
        };
        return Decision {
            verdict: verdict,
            fresh: false,
        };
    }
    let verdict = own_answer(map, r);
    Decision {
        verdict: verdict,
        fresh: true,
    }
}

// By what is remembered of its client; 23 a 65th client, before the command's own checks.
pub fn decided(map: &[u8], r: Request) -> Decision
    requires { Ready map.now r }
    ensures { Decides map.now r result }
{
    let count = num::get8(map, SESSIONS_USED) as usize;
    let place = session_place(map, count, r.client);
    if place < count {
        return of_known(map, r, place);
    }
    if 64 <= count {
        let verdict = refused(Refusal::NoRoom);
        return Decision {
            verdict: verdict,
            fresh: false,
        };
    }
    let verdict = own_answer(map, r);
    Decision {
        verdict: verdict,
        fresh: true,
    }
}

// What was decided, carried out.
ghost use Rattle.image_map_put.specs.Few.{Few};
ghost use Rattle.calls_decide.specs.Decides.{Decides, Ready};
ghost use Rattle.calls_apply.specs.Settles.{Repeats, Settles};

use crate::taken::taken;
use calls_decide::Decision;
use calls_decide::decided::decided;
use calls_map::numbers::verdict_number;
use image_map_put::put_tidied;
use map_tables::{Request, Verdict};

// Told again: of an answer that the map remembers its image is written in the one form, and no other answer changes a byte.
fn repeated(map: &mut [u8], verdict: Verdict) -> u32
    requires { Few map.old }
    ensures { Repeats map.old map.new verdict result }
{
    let number = verdict_number(verdict);
    if number == 1 {
        return number;
    }
    if 16 < number {
        return number;
    }
    put_tidied(map);
    number
}

// A decision on this map, written into it.
pub fn carry_out(map: &mut [u8], r: Request, d: Decision) -> u32
    requires { Ready map.old r × Decides map.old r d }
    ensures { Settles map.old map.new r result }
{
    let verdict = d.verdict;
    if d.fresh {
        return taken(map, r, verdict);
    }
    repeated(map, verdict)
}

// A request on a map that passed its test.
pub fn settle(map: &mut [u8], r: Request) -> u32
    requires { Ready map.old r }
    ensures { Settles map.old map.new r result }
{
    let d = decided(map, r);
    carry_out(map, r, d)
}

// One request applied to a map that passed the 24 test; what it makes of the map passes again.
ghost use Rattle.map_request.specs.Read.{Within};
ghost use Rattle.thm_map_never_malformed.specs.Calls.{Intact};
ghost use Rattle.test_input.specs.Stream.{Stepped};

use calls_apply::settled::settle;
use image_map_check::layout::VERSION;
use map_tables::Request;
use test_lines::{Line, line_of};

pub fn step(map: &mut [u8], r: Request) -> Line
    requires { (Intact map.old) × (Within r) }
    ensures { Stepped map.old map.new r result }
{
    let number = settle(map, r);
    let version = num::get8(map, VERSION);
    line_of(r.index, number, version)
}

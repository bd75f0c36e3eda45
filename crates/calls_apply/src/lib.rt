// Apply over a map's image, in place (paper 01, 'The shard map', and 'Who is turned down'): a request is decided from the bytes before any is
// written (crate calls_decide), and what was decided is then carried out.
#![tactic(auto)]

ghost use Rattle.calls_map.specs.Calls.{AppliesTo};

use crate::settled::settle;
use image_map_check::formed::is_formed;
use image_map_check::lent::is_lent;
use map_request::load::load;
use wire_read::Message;

mod changed;
mod nodes;
mod remember;
pub mod settled;
mod taken;
mod tell;

// 21, 24, then the sessions and the command.
pub fn apply(map: &mut [u8], request: &[u8]) -> u32
    ensures { AppliesTo map.old map.new request.now result }
{
    let message = wire_read::decode(request);
    let Message::Request(p) = message else {
        return 21;
    };
    if !is_lent(map) {
        return 24;
    }
    if !is_formed(map) {
        return 24;
    }
    let r = load(request, p);
    settle(map, r)
}

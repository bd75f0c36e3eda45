// The requests that stand in the bytes at hand, one after the other.
ghost use Rattle.std.specs.Prelude.{◌≤◌, length};
ghost use Rattle.thm_map_never_malformed.specs.Calls.{Intact};
ghost use Rattle.test_input.specs.Stream.{DrainedAs};

use crate::step::step;
use crate::{Drained, Said};
use map_request::request_at;
use test_lines::{Line, Word};

// Each is applied until none stands there whole. A request has 25 bytes at least, so there is a place for every line.
pub fn drain(map: &mut [u8], s: &[u8]) -> Drained
    requires { (Intact map.old) × (length s.now ≤ 8192) }
    ensures { DrainedAs map.old map.new s.now result }
{
    let mut at: usize = 0;
    let mut items = [Line {
        index: 0,
        word: Word::Applied,
        reason: 0,
        version: 0,
    }; 328];
    let mut n: usize = 0;
    // Stays a while: the place moves by each request's own length.
    loop {
        let read = request_at(s, at);
        if !read.found {
            let said = Said {
                items: items,
                count: n,
            };
            return Drained { at: at, said: said };
        }
        let r = read.request;
        let l = step(map, r);
        items[n] = l;
        n += 1;
        at = read.next;
    }
}

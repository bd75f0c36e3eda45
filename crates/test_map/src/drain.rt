// The requests that stand in a record, one after the other, each taken by its own length.
ghost use Rattle.thm_map_never_malformed.specs.Calls.{Intact};

use crate::says::says;
use map_request::request_at;

// Each is applied, and its line printed, until none stands there whole. The map passes the 24 test before and after.
pub fn drain(map: &mut [u8], s: &[u8])
    requires { Intact map.old }
    ensures { Intact map.new }
{
    let mut at: usize = 0;
    // Stays a while: the place moves by each request's own length.
    loop {
        let read = request_at(s, at);
        if !read.found {
            return;
        }
        let next = read.next;
        says(map, read.request.index, &s[at..next]);
        at = next;
    }
}

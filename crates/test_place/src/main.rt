// Replays the oracle's stored answers of `place` and `replacement` (paper 01, 'Place'; state.rs) on maps that requests have built: calls on
// one map on standard input, each a number u8, a length u16 and as many bytes of operands, and what each answers on standard output.
// An unknown call or a record that is cut short ends the program. stdin is oracle/stored/placement/chosen.in, random-1.in and random-2.in one
// after the other, then counts.in, stdout their .out: the answers of the Rust. The map is a byte image, the calls are crates calls_map's and
// calls_place's, and for how many placements pass (paper 02, 2.14) crate calls_count's; where they are few, each is asked of Create's own code too.
#![tactic(auto)]

use answers::{place, replacement};
use counts::count;
use test_count::answers::builds;
use test_count::records::next;
use test_lines::parts::first;

mod answers;
mod counts;

// One call with its operands.
fn on_call(map: &mut [u8], call: u8, s: &[u8]) {
    if builds(map, call, s) {
        return;
    }
    if call == 2 {
        place(map, s);
        return;
    }
    if call == 3 {
        replacement(map, s);
        return;
    }
    count(map, s);
}

// One record. False where no whole one is left or its call is unknown, which ends the program.
fn one(map: &mut [u8]) -> bool {
    let mut buf = io::large_buffer();
    let r = next(&mut buf, 5);
    if !r.whole {
        return false;
    }
    on_call(map, r.call, first(&buf, r.length));
    true
}

// Records until the input ends. Nothing says that it does, so they are counted down.
fn run(map: &mut [u8]) {
    let mut left = 1000000u64;
    // Stays a while: wrong/record_read_for_ever.edit makes it endless by its last step, which a for has not.
    while 0 < left {
        if !one(map) {
            return;
        }
        left -= 1;
    }
}

// An image of zeros is an empty map.
fn main() {
    let mut map = [0u8; 26536];
    run(&mut map);
}

// Replays the oracle's stored answers of `place_losses` (paper 02, 2.9) on maps that requests have built: calls on one map on standard input, each
// a number u8, a length u16 and as many bytes of operands, and what each answers on standard output. An unknown call or a record that is cut
// short ends the program. stdin is oracle/stored/losses/chosen.in, random-1.in and random-2.in one after the other, stdout their .out: found by
// trying every live node with the Rust's `place`. The map is a byte image, the call is crate calls_losses'.
#![tactic(auto)]

use answers::{losses, spec};
use test_count::answers::builds;
use test_count::records::next;
use test_lines::parts::first;

mod answers;

// One call with its operands.
fn on_call(map: &mut [u8], call: u8, s: &[u8]) {
    if builds(map, call, s) {
        return;
    }
    if call == 2 {
        losses(map, s);
        return;
    }
    spec(map, s);
}

// One record. False where no whole one is left or its call is unknown, which ends the program.
fn one(map: &mut [u8]) -> bool {
    let mut buf = io::large_buffer();
    let r = next(&mut buf, 4);
    if !r.whole {
        return false;
    }
    on_call(map, r.call, first(&buf, r.length));
    true
}

// Records until the input ends. Nothing says that it does, so they are counted.
fn run(map: &mut [u8]) {
    for _ in 0..1000000u64 {
        if !one(map) {
            return;
        }
    }
}

// An image of zeros is an empty map.
fn main() {
    let mut map = [0u8; 26536];
    run(&mut map);
}

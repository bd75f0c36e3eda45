// Program `applymap` of paper 01: starts from an empty map and applies the 01 requests that follow one another on
// standard input, each taken by its own length, until one does not decode or the input ends (crate test_input). Of each it
// prints the index, the word, the reason and the map's version.
#![tactic(auto)]

ghost use Rattle.std.specs.Prelude.{◌≤◌, length};

use test_input::drain::drain;
use test_input::input::refill;
use test_input::start::start;
use test_input::{LONGEST, Said};
use test_lines::print::print;

fn print_all(said: Said)
    requires { said.count ≤ 328 }
{
    for l in &said.items[..said.count] {
        print(*l);
    }
}

// Nothing says that an input ends, so the turns are counted, up to a number that no run reaches.
fn run<R: Input>(rt: &R, map: &mut [u8], buf: &mut [u8])
    requires { (26536 ≤ length map.old) × (length buf.old ≤ 8192) }
{
    start(map);
    let mut n: usize = 0;
    for _ in 0..u64::MAX {
        let done = drain(map, &buf[..n]);
        let said = done.said;
        print_all(said);
        let at = done.at;
        let rest = n - at;
        if LONGEST <= rest {
            return;
        }
        let more = refill(rt, buf, at, n);
        if more <= rest {
            return;
        }
        n = more;
    }
}

fn main(rt: HostRuntime) {
    let mut map = [0u8; 26536];
    let mut buf = [0u8; 8192];
    run(&rt, &mut map, &mut buf);
}

// Program `loadsheet` of paper 02, 2.4: takes its input as program `applymap` does and prints of the last map how many replica records name each
// node, by rising id, how many name a node that the map does not know, and how many there are.
#![tactic(auto)]

ghost use Rattle.std.specs.Prelude.{◌≤◌, length};
ghost use Rattle.thm_map_never_malformed.specs.Calls.{Intact};

use image_map_sheet::{Load, Loads, SheetOf, sheet_of};
use test_input::LONGEST;
use test_input::drain::drain;
use test_input::input::refill;
use test_input::start::start;
use test_lines::words::{line, number};

// The image becomes that of the map after the last request. Nothing says that an input ends, so the turns are counted, up to a number that no run
// uses up.
fn last_map<R: Input>(rt: &R, map: &mut [u8], buf: &mut [u8])
    requires { (26536 ≤ length map.old) × (length buf.old ≤ 8192) }
    ensures { Intact map.new }
{
    start(map);
    let mut n: usize = 0;
    for _ in 0..u64::MAX {
        let done = drain(map, &buf[..n]);
        let at = done.at;
        let rest = n - at;
        if LONGEST <= rest {
            return;
        }
        let more = refill(rt, buf, at, n);
        if more <= rest {
            return;
        }
        n = more;
    }
}

// The id, a blank and the count.
fn print_load(x: Load) {
    io::print_decimal(1, x.node.0);
    number(x.count);
    io::write_all(1, b"\n");
}

fn print_lines(l: Loads)
    requires { l.count ≤ 32 }
{
    for i in 0..l.count {
        let x = l.items[i];
        print_load(x);
    }
}

fn print_sheet(s: SheetOf)
    requires { s.lines.count ≤ 32 }
{
    let each = s.lines;
    print_lines(each);
    line(b"unknown", s.unknown);
    line(b"total", s.total);
}

fn main(rt: HostRuntime) {
    let mut map = [0u8; 26536];
    let mut buf = [0u8; 8192];
    last_map(&rt, &mut map, &mut buf);
    let s = sheet_of(&map);
    print_sheet(s);
}

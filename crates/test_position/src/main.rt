// Positions by lines (paper 02, 2.7). A line `f` with the seven fields of an editor asks for milliarcseconds, a line `p` with two numbers of
// milliarcseconds for their fields and their vector; an answer is a line, with the number of a refusal in the place of what was asked for. A number
// above the largest u32 counts as that one. stdin and stdout are oracle/stored/positions, whose answers are those of oracle/positions.py.
#![tactic(auto)]

ghost use Rattle.std.specs.Prelude.{◌≤◌, length};

use crate::numbers::{Number, next_line, number_at};
use crate::print::{print_fields, print_place, print_vector};

mod numbers;
mod print;

fn signed(n: Number) -> i64 {
    if n.minus {
        return num_position::signed::negated(n.size);
    }
    num_position::signed::plain(n.size)
}

fn typed(s: &[u8], from: usize)
    requires { from ≤ length s.now }
{
    let hours = number_at(s, from);
    let minutes = number_at(s, hours.next);
    let thousandths = number_at(s, minutes.next);
    let minus = number_at(s, thousandths.next);
    let degrees = number_at(s, minus.next);
    let arcminutes = number_at(s, degrees.next);
    let arcthousandths = number_at(s, arcminutes.next);
    let mut place = [0u8; 16];
    let said = calls_position::position(
        hours.size,
        minutes.size,
        thousandths.size,
        minus.size,
        degrees.size,
        arcminutes.size,
        arcthousandths.size,
        &mut place,
    );
    print_place(said, &place);
}

fn placed(s: &[u8], from: usize)
    requires { from ≤ length s.now }
{
    let first = number_at(s, from);
    let second = number_at(s, first.next);
    let ra = signed(first);
    let dec = signed(second);
    let mut fields = [0u8; 28];
    let said = calls_position::position_fields(ra, dec, &mut fields);
    print_fields(said, &fields);
    io::write_all(1, b" |");
    let mut vector = [0u8; 17];
    let told = calls_position::position_vector(ra, dec, &mut vector);
    print_vector(told, &vector);
    io::write_all(1, b"\n");
}

fn replay(s: &[u8]) {
    let mut at = 0usize;
    // Stays a while: `at` moves by what stands in the line, and no index is counted.
    while at < s.len() {
        let kind = s[at];
        if kind == b'f' {
            typed(s, at + 1);
        }
        if kind == b'p' {
            placed(s, at + 1);
        }
        at = next_line(s, at);
    }
}

fn main() {
    let mut buf = io::large_buffer();
    let n = io::read_full(0, &mut buf);
    replay(&buf[..n]);
}

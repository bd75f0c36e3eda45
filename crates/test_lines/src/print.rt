// One line of the output.
use crate::{Line, Word};

fn word(w: Word) {
    match w {
        Word::Applied => {
            io::write_all(1, b" applied ");
        }
        Word::Rejected => {
            io::write_all(1, b" rejected ");
        }
        Word::Refused => {
            io::write_all(1, b" refused ");
        }
    }
}

// index, word, reason, version; the line is left open
pub fn put(l: Line) {
    io::print_decimal(1, l.index);
    let w = l.word;
    word(w);
    io::print_decimal(1, l.reason);
    io::write_all(1, b" ");
    io::print_decimal(1, l.version);
}

// The same, and its end.
pub fn print(l: Line) {
    put(l);
    io::write_all(1, b"\n");
}

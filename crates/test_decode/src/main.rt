// Replays the oracle's stored messages (paper 01, 'Bytes on the wire'): records of a length u16 and as many bytes on
// standard input, and for each a line with what the message decodes to on standard output, `undecodable` where it
// does not. What decodes is also written again and compared: `unlike` stands after a line where the bytes differ, which
// none has. stdin is oracle/stored/decode/kinds.in and long.in one after the other, stdout their .out: the lines that
// the oracle's decoder made. What is decoded is crate wire_read's; this program shows it.
#![tactic(auto)]

use kinds::message;

mod again;
mod command;
mod items;
mod kinds;
mod words;

// The length that the first two bytes spell.
fn length_of(head: &[u8]) -> usize {
    if head.len() < 2 {
        return 0;
    }
    num::get2(head, 0) as usize
}

// A message's line, and `unlike` after it where the writer makes other bytes of what was decoded.
fn line(s: &[u8]) {
    if !message(s) {
        io::write_all(1, b" unlike");
    }
}

// The bytes of a record, as many as the buffer takes, and their line. False where the input ends before.
fn body(buf: &mut [u8]) -> bool {
    let n = io::read_full(0, buf);
    if n < buf.len() {
        return false;
    }
    line(&buf[..n]);
    io::write_all(1, b"\n")
}

// The same of the first bytes of a larger buffer.
fn first(buf: &mut [u8], len: usize) -> bool {
    if buf.len() < len {
        return false;
    }
    body(&mut buf[..len])
}

// One record. False where no whole one is left, which ends the program.
fn one() -> bool {
    let mut head = [0u8; 2];
    let n = io::read_full(0, &mut head);
    if n < 2 {
        return false;
    }
    let len = length_of(&head);
    let mut buf = io::large_buffer();
    first(&mut buf, len)
}

// Nothing says that an input ends, so the records are counted.
fn main() {
    for _ in 0..1000000u64 {
        if !one() {
            return;
        }
    }
}

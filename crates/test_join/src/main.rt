// Replays the oracle's stored joins (paper 02, 2.2): cases one after the other on standard input, each the collection's shards, k, how many
// hits there is room for and a length, u32 each, and so many bytes of answers; for each a line `found C` and C lines with an id and the bits
// of its distance, or `refused N`, on standard output. stdin is oracle/stored/join/chosen.in, full.in and whole.in one after the other, stdout their
// .out: of whole.in the answers of the Rust's one search over all vectors together. Each is one call of crate calls_join.
#![tactic(auto)]

use calls_join::join;

fn four(s: &[u8], at: usize) -> u32 {
    if s.len() < 4 {
        return 0;
    }
    if s.len() - 4 < at {
        return 0;
    }
    num::get4(s, at)
}

fn refused(x: u32) {
    io::write_all(1, b"refused ");
    io::print_decimal(1, x as u64);
    io::write_all(1, b"\n");
}

// An id and the bits of its distance.
fn print_hit(id: u64, bits: u32) {
    io::print_decimal(1, id);
    io::write_all(1, b" ");
    io::print_hex(1, bits as u64, 8);
    io::write_all(1, b"\n");
}

fn print_hits(out: &[u8], n: usize) {
    io::write_all(1, b"found ");
    io::print_decimal(1, n as u64);
    io::write_all(1, b"\n");
    let mut at: usize = 0;
    for _ in 0..n {
        if out.len() - at < 12 {
            return;
        }
        print_hit(num::get8(out, at), num::get4(out, at + 8));
        at += 12;
    }
}

fn replay(shards: u32, k: u32, answers: &[u8], out: &mut [u8]) {
    match join(shards, k, answers, out) {
        Ok(n) => print_hits(out, n),
        Err(why) => refused(u32::from(why)),
    }
}

// The next n bytes of the input. False where there are fewer, or no room for them.
fn fill(buf: &mut [u8], n: usize) -> bool {
    if buf.len() < n {
        return false;
    }
    io::read_full(0, &mut buf[..n]) == n
}

// The answers of a case, and its lines. False where they are cut short, or too long for the buffers.
fn case(head: &[u8], answers: &mut [u8], out: &mut [u8]) -> bool {
    let room = four(head, 8) as usize;
    let length = four(head, 12) as usize;
    if !fill(answers, length) {
        return false;
    }
    if answers.len() < length {
        return false;
    }
    if out.len() / 12 < room {
        return false;
    }
    let end = 12 * room;
    replay(
        four(head, 0),
        four(head, 4),
        &answers[..length],
        &mut out[..end],
    );
    true
}

// One case. False where no whole one is left, which ends the program.
fn one() -> bool {
    let mut head = [0u8; 16];
    if io::read_full(0, &mut head) < 16 {
        return false;
    }
    let mut answers = io::large_buffer();
    let mut out = io::large_buffer();
    case(&head, &mut answers, &mut out)
}

// Nothing says that an input ends, so the cases are counted.
fn main() {
    for _ in 0..1_000_000 {
        if !one() {
            return;
        }
    }
}

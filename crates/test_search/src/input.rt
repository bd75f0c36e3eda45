// What a case is made of, as it stands on standard input (paper 01, 'Bytes on the wire').

use float_distance::order::bits_in_domain;
use test_lines::parts::float_of;

pub fn wide(b: u8) -> usize {
    b as usize
}

// The first two bytes as a number.
pub fn two(s: &[u8]) -> usize {
    if s.len() < 2 {
        return 0;
    }
    num::get2(s, 0) as usize
}

// The four bytes at a place as a number.
pub fn four(s: &[u8], at: usize) -> u32 {
    if s.len() < 4 {
        return 0;
    }
    if s.len() - 4 < at {
        return 0;
    }
    num::get4(s, at)
}

// Fills a stretch of a buffer. False where the input or the buffer ends before.
fn fill(buf: &mut [u8], from: usize, to: usize) -> bool {
    if to < from {
        return false;
    }
    if buf.len() < to {
        return false;
    }
    io::read_full(0, &mut buf[from..to]) == to - from
}

// The byte at a place; 0 where there is none.
fn at(s: &[u8], i: usize) -> u8 {
    if s.len() <= i {
        return 0;
    }
    s[i]
}

// A vector's components from a place of a buffer on, behind its count. Answers where they end, None where no vector reads.
fn vector(buf: &mut [u8], from: usize) -> Option<usize> {
    let n = wide(at(buf, from));
    if n == 0 {
        return None;
    }
    if 32 < n {
        return None;
    }
    if 1000 < from {
        return None;
    }
    let end = from + 1 + 4 * n;
    if !fill(buf, from + 1, end) {
        return None;
    }
    Some(end)
}

// An operation, into the bytes of a Write behind its key and its epoch, which stay as they are. Answers where it ends; None where
// none reads.
pub fn operation(message: &mut [u8]) -> Option<usize> {
    if !fill(message, 46, 55) {
        return None;
    }
    let code = at(message, 46);
    if code == 2 {
        return Some(55);
    }
    if code != 1 {
        return None;
    }
    if !fill(message, 55, 56) {
        return None;
    }
    vector(message, 55)
}

// The floats of n components; whether all of them lie in the domain.
fn floats_of(bytes: &[u8], out: &mut [f32], n: usize) -> bool {
    let mut inside = true;
    for i in 0..n {
        if 32 <= i {
            return false;
        }
        if out.len() <= i {
            return false;
        }
        let b = four(bytes, 4 * i);
        out[i] = float_of(b);
        if !bits_in_domain(b) {
            inside = false;
        }
    }
    inside
}

// The components of a query of n, 1 to 32; whether all of them lie in the domain. None where they do not read.
pub fn floats_in(out: &mut [f32], n: usize) -> Option<bool> {
    let mut bytes = [0u8; 128];
    if n == 0 {
        return None;
    }
    if 32 < n {
        return None;
    }
    if !fill(&mut bytes, 0, 4 * n) {
        return None;
    }
    Some(floats_of(&bytes, out, n))
}

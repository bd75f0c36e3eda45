// What a record is made of (paper 01, 'Bytes on the wire').

use float_distance::order::bits_in_domain;
use test_lines::parts::float_of;
use wire_read::Part;

// A call and how many bytes of operands it has.
#[derive(Drop)]
pub struct Record {
    pub call: u8,
    pub n: usize,
}

// Fills the first n bytes of a buffer. False where the input or the buffer ends before.
fn fill(buf: &mut [u8], n: usize) -> bool {
    if buf.len() < n {
        return false;
    }
    io::read_full(0, &mut buf[..n]) == n
}

// The next record, its operands at the start of the buffer. None where the input ends, or no such call is known.
pub fn next_record(buf: &mut [u8]) -> Option<Record> {
    let mut head = [0u8; 3];
    if !fill(&mut head, 3) {
        return None;
    }
    let call = head[0];
    if 11 < call {
        return None;
    }
    let n = two(&head, 1);
    if !fill(buf, n) {
        return None;
    }
    Some(Record { call, n })
}

// The two bytes at a place as a number; 0 where they are not there.
pub fn two(s: &[u8], at: usize) -> usize {
    if s.len() < 2 {
        return 0;
    }
    if s.len() - 2 < at {
        return 0;
    }
    num::get2(s, at) as usize
}

// The first eight bytes as a number; 0 where there are fewer.
pub fn long(s: &[u8]) -> u64 {
    if s.len() < 8 {
        return 0;
    }
    num::get8(s, 0)
}

// The bits of component i of a vector; 0 where they are not there.
fn component(s: &[u8], at: usize, i: usize) -> u32 {
    if 32 <= i {
        return 0;
    }
    if 65536 < at {
        return 0;
    }
    let from = at + 4 * i;
    if s.len() < 4 {
        return 0;
    }
    if s.len() - 4 < from {
        return 0;
    }
    num::get4(s, from)
}

// The floats of a message's vector; whether all of them lie in the domain.
pub fn floats_of(s: &[u8], v: Part, out: &mut [f32]) -> bool {
    let at = v.at;
    let n = v.len;
    for i in 0..n {
        if out.len() <= i {
            return false;
        }
        let b = component(s, at, i);
        if !bits_in_domain(b) {
            return false;
        }
        out[i] = float_of(b);
    }
    true
}

// Records of a program's input: the number of a call u8, a length u16 and as many bytes of operands.

// What was read. Where `whole` is false nothing is left to do: no whole record, or an unknown call.
#[derive(Drop)]
pub struct Record {
    pub whole: bool,
    pub call: u8,
    pub length: usize,
}

fn none() -> Record {
    Record {
        whole: false,
        call: 0,
        length: 0,
    }
}

// Fills the first n bytes of a buffer. False where the input or the buffer ends before.
fn fill(buf: &mut [u8], n: usize) -> bool {
    if buf.len() < n {
        return false;
    }
    io::read_full(0, &mut buf[..n]) == n
}

// The length that two bytes spell; 0 where they are not there.
fn length_of(head: &[u8]) -> usize {
    if head.len() < 3 {
        return 0;
    }
    num::get2(head, 1) as usize
}

// The next record, its operands at the buffer's start. The calls known are those below `calls`.
pub fn next(buf: &mut [u8], calls: u8) -> Record {
    let mut head = [0u8; 3];
    if !fill(&mut head, 3) {
        return none();
    }
    let call = head[0];
    if calls <= call {
        return none();
    }
    let n = length_of(&head);
    if !fill(buf, n) {
        return none();
    }
    Record {
        whole: true,
        call: call,
        length: n,
    }
}

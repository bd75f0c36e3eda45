// The parts of a message that are not single numbers: shown item by item, and put into the columns that crate wire_write takes. Items above
// their limit are passed over: the message is then unlike. Each function asks that its part lies in the message, which the readers'
// answer ensures (proofs/Held.antt).
ghost use Rattle.std.specs.Prelude.{◌<◌, ◌≤◌};
ghost use Rattle.spec.specs.Layout.Format.{many};
ghost use Rattle.spec.specs.Layout.Parts.{entry_f, u64};
ghost use Rattle.test_decode.specs.Held.{OpHeld, Row, Run};

use crate::words::{bits, bytes, number};
use spec::Metric;
use wire_read::{EntryPart, KeyPart, OpPart, Part};

// An operation, with its components in a lent column: how many there are.
#[derive(Drop)]
pub struct OpTaken {
    pub upsert: bool,
    pub id: u64,
    pub n: usize,
}

// A count of at most 32 as a byte.
fn count(n: usize) -> u8 {
    if 32 < n {
        return 0;
    }
    n as u8
}

// The code of an operation.
fn code(upsert: bool) -> u8 {
    if upsert {
        return 1;
    }
    2
}

pub fn metric(m: Metric) {
    match m {
        Metric::Euclidean => number(0),
        Metric::Angular => number(1),
    }
}

pub fn text(s: &[u8], p: Part) {
    bytes(wire_read::parts::bytes(s, p));
}

pub fn key(s: &[u8], k: KeyPart) {
    let name = k.name;
    text(s, name);
    number(k.shard as u64);
}

// The count, and the bits of each component, which stand from a place of the column on; how many.
pub fn vector(s: &[u8], v: Part, column: &mut [u32; 8192], from: usize) -> usize
    requires { (Run 4 s.now v) × (from ≤ 8160) }
{
    let n = v.len;
    number(n as u64);
    if 32 < n {
        return 0;
    }
    for i in 0..n {
        let b = wire_read::parts::component(s, v, i);
        bits(b);
        column[from + i] = b;
    }
    n
}

pub fn op(s: &[u8], o: OpPart, column: &mut [u32; 8192], from: usize) -> OpTaken
    requires { (OpHeld s.now o) × (from ≤ 8160) }
{
    match o {
        OpPart::Upsert { id, vector: v } => {
            number(1);
            number(id);
            let n = vector(s, v, column, from);
            OpTaken {
                upsert: true,
                id,
                n,
            }
        }
        OpPart::Delete { id } => {
            number(2);
            number(id);
            OpTaken {
                upsert: false,
                id,
                n: 0,
            }
        }
    }
}

// The count, and each pair: the epochs stand in the column, and the ends from place 1024 on; how many.
pub fn table(s: &[u8], t: Part, column: &mut [u64; 2048]) -> usize
    requires { Run 16 s.now t }
{
    let n = t.len;
    number(n as u64);
    if 1024 < n {
        return 0;
    }
    for i in 0..n {
        let pair = wire_read::parts::end_at(s, t, i);
        number(pair.epoch.0);
        number(pair.end.0);
        column[i] = pair.epoch.0;
        column[1024 + i] = pair.end.0;
    }
    n
}

// One entry's row, but for its components: epoch, offset and id, code and length, each 256 places after the last.
fn row(i: usize, e: EntryPart, t: OpTaken, words: &mut [u64; 768], small: &mut [u8; 512])
    requires { i < 256 }
{
    words[i] = e.epoch.0;
    words[256 + i] = e.offset.0;
    words[512 + i] = t.id;
    small[i] = code(t.upsert);
    small[256 + i] = count(t.n);
}

// The count, and each entry; how many.
pub fn entries(
    s: &[u8],
    p: Part,
    words: &mut [u64; 768],
    small: &mut [u8; 512],
    column: &mut [u32; 8192],
) -> usize
    requires { Row entry_f s.now p }
{
    let n = p.len;
    number(n as u64);
    if 256 < n {
        return 0;
    }
    let mut at = p.at;
    for i in 0..n {
        let e = wire_read::parts::entry_at(s, at);
        number(e.epoch.0);
        number(e.offset.0);
        let o = e.op;
        let t = op(s, o, column, 32 * i);
        row(i, e, t, words, small);
        at = e.next;
    }
    n
}

// The count, and each node, which stand from a place of the column on; how many.
fn nodes(s: &[u8], list: Part, column: &mut [u64; 128], from: usize) -> usize
    requires { (Run 8 s.now list) × (from ≤ 120) }
{
    let n = list.len;
    number(n as u64);
    if 8 < n {
        return 0;
    }
    for i in 0..n {
        let node = wire_read::parts::node_at(s, list, i);
        number(node.0);
        column[from + i] = node.0;
    }
    n
}

// The count, and each list; how many.
pub fn placement(s: &[u8], p: Part, counts: &mut [u8; 16], column: &mut [u64; 128]) -> usize
    requires { Row (many 1 0 8 u64) s.now p }
{
    let n = p.len;
    number(n as u64);
    if 16 < n {
        return 0;
    }
    let mut at = p.at;
    for i in 0..n {
        let list = wire_read::parts::nodes_at(s, at);
        let m = nodes(s, list, column, 8 * i);
        counts[i] = count(m);
        at = list.at + list.len * 8;
    }
    n
}

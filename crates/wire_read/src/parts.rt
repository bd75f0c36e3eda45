// Internal: the parts of a message, at places where one stands. Names, vectors, tables, lists and entries are not
// copied: these functions hand back a part of the bytes, or the item at an index.
ghost use Rattle.std.specs.Prelude.{◌≡◌, ◌+◌, ◌*◌, ◌<◌, ◌≤◌, true, length, take, drop, slice_index};
ghost use Rattle.spec.specs.Layout.Format.{fits, next, value, number_at, many};
ghost use Rattle.spec.specs.Layout.Parts.{u64, key_f, op_f, entry_f, entry_of, key_of, metric_of, op_of};
ghost use Rattle.wire_read.specs.Shown.{entry_shown, key_shown, op_shown, part};

use crate::{EndPart, EntryPart, KeyPart, OpPart, Part};
use spec::{DataNodeId, Epoch, Metric, Offset};

// The bytes of a name, an address or a Bench: a part of the message, no copy. Past the message's end there are none.
pub fn bytes(s: &[u8], p: Part) -> &[u8]
    ensures { result.now ≡ take p.len (drop p.at s.now) }
{
    let at = p.at;
    let len = p.len;
    if s.len() <= at {
        return &s[0..0];
    }
    if s.len() - at < len {
        return &s[at..];
    }
    &s[at..at + len]
}

// The bits of the component at an index of a vector.
pub fn component(s: &[u8], v: Part, i: usize) -> u32
    requires { v.at + i * 4 + 4 ≤ length s.now }
    ensures { result ≡ number_at 4 s.now (v.at + i * 4) }
{
    let at = v.at;
    num::get4(s, at + i * 4)
}

// The node at an index of a list.
pub fn node_at(s: &[u8], list: Part, i: usize) -> DataNodeId
    requires { list.at + i * 8 + 8 ≤ length s.now }
    ensures { result.0 ≡ number_at 8 s.now (list.at + i * 8) }
{
    let at = list.at;
    DataNodeId(num::get8(s, at + i * 8))
}

// The pair at an index of an epoch table.
pub fn end_at(s: &[u8], table: Part, i: usize) -> EndPart
    requires { table.at + i * 16 + 16 ≤ length s.now }
    ensures epoch { result.epoch.0 ≡ number_at 8 s.now (table.at + i * 16) }
    ensures end { result.end.0 ≡ number_at 8 s.now (table.at + i * 16 + 8) }
{
    let at = table.at;
    let p = at + i * 16;
    let epoch = Epoch(num::get8(s, p));
    let end = Offset(num::get8(s, p + 8));
    EndPart { epoch, end }
}

// A part with its length byte at a position.
pub fn text_at(s: &[u8], at: usize) -> Part
    requires { at < length s.now }
    ensures { result ≡ part (at + 1) (slice_index s.now at) }
{
    let n = s[at] as usize;
    Part { at: at + 1, len: n }
}

// One list of a placement: its nodes, of 8 bytes each. The next list begins after them.
pub fn nodes_at(s: &[u8], at: usize) -> Part
    requires { fits (many 1 0 8 u64) s.now at ≡ true }
    ensures { result ≡ part (at + 1) (length (value (many 1 0 8 u64) s.now at)) }
{
    text_at(s, at)
}

// A metric's code.
pub fn metric_at(s: &[u8], at: usize) -> Metric
    requires { at < length s.now }
    ensures { result ≡ metric_of (slice_index s.now at) }
{
    if s[at] == 0 {
        return Metric::Euclidean;
    }
    Metric::Angular
}

// A shard's key.
pub fn key_at(s: &[u8], at: usize) -> KeyPart
    requires { fits key_f s.now at ≡ true }
    ensures { result ≡ key_shown at (key_of (value key_f s.now at)) }
{
    let name = text_at(s, at);
    let shard = num::get4(s, at + 1 + 32);
    KeyPart { name, shard }
}

// An operation.
pub fn op_at(s: &[u8], at: usize) -> OpPart
    requires { fits op_f s.now at ≡ true }
    ensures { result ≡ op_shown at (op_of (value op_f s.now at)) }
{
    let id = num::get8(s, at + 1);
    if s[at] == 1 {
        let vector = text_at(s, at + 1 + 8);
        return OpPart::Upsert { id, vector };
    }
    OpPart::Delete { id }
}

// The position after an operation.
fn op_end(s: &[u8], at: usize) -> usize
    requires { fits op_f s.now at ≡ true }
    ensures { result ≡ next op_f s.now at }
{
    if s[at] == 1 {
        let n = s[at + 1 + 8] as usize;
        return at + 1 + 8 + 1 + n * 4;
    }
    at + 1 + 8
}

// One entry of a CopyShard, with the place of the next.
pub fn entry_at(s: &[u8], at: usize) -> EntryPart
    requires { fits entry_f s.now at ≡ true }
    ensures { result ≡ entry_shown at (entry_of (value entry_f s.now at)) (next entry_f s.now at) }
{
    let epoch = Epoch(num::get8(s, at));
    let offset = Offset(num::get8(s, at + 8));
    let op = op_at(s, at + 8 + 8);
    let next = op_end(s, at + 8 + 8);
    EntryPart {
        epoch,
        offset,
        op,
        next,
    }
}

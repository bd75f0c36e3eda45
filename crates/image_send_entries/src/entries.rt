// Operations and entries, from the columns of the store that begins at `base` into the output.
ghost use Rattle.std.specs.Prelude.{◌≡◌, true, false, [], ◌+◌, ◌-◌, ◌*◌, ◌≤◌, ◌<◌, eqb, length, get_or};
ghost use Rattle.std.proofs.lemmas.List.Edits.{sets};
ghost use Rattle.spec.specs.Layout.Format.{Bytes};
ghost use Rattle.wire_write.specs.Written.{op_bytes, op_size};
ghost use Rattle.wire_write.specs.Rows.{rows_size};
ghost use Rattle.node_send_entries.specs.Sent.{op_sent, entry_sent, entries_sent};
ghost use Rattle.image_store.specs.Image.{words};
ghost use Rattle.image_store.specs.Read.{codes_in, lengths_in};
ghost use Rattle.image_send_entries.specs.Store.{store_columns, Sends};

use image_store_check::columns::{CODES, FLOATS, FLOATS_OF_ONE, IDS, LENGTHS, OFFSETS};
use node_send_entries::entries::entry_size;
use wire_write::put::{put_byte, put_bytes};

// An Upsert of the n patterns that stand from `from` on: they are copied as they are.
fn put_upsert(out: &mut [u8], at: usize, id: u64, s: &[u8], from: usize, n: usize)
    requires { (at + (10 + 4 * n) ≤ length out.old) × (n ≤ 32) × (from + 4 * n ≤ length s.now) × Bytes s.now }
    ensures { out.new ≡ sets out.old at (op_bytes true id (words 4 n s.now from)) }
{
    put_byte(out, at, 1);
    num::put8(out, at + 1, id);
    put_byte(out, at + 9, n as u8);
    put_bytes(out, at + 10, &s[from..from + 4 * n]);
}

fn put_delete(out: &mut [u8], at: usize, id: u64)
    requires { at + 9 ≤ length out.old }
    ensures { out.new ≡ sets out.old at (op_bytes false id []) }
{
    put_byte(out, at, 2);
    num::put8(out, at + 1, id);
}

// The operation at place i.
pub fn put_op(out: &mut [u8], at: usize, s: &[u8], base: usize, count: usize, i: usize)
    requires { Sends s.now base count × (i < count)
        × (at + op_size (eqb (get_or s.now (base + 24576 + i) 0) 1) (get_or s.now (base + 25600 + i) 0) ≤ length out.old) }
    ensures { out.new ≡ sets out.old at (op_sent (store_columns s.now base count) i) }
{
    let id = num::get8(s, base + IDS + i * 8);
    if s[base + CODES + i] == 1 {
        let n = s[base + LENGTHS + i] as usize;
        put_upsert(out, at, id, s, base + FLOATS + i * FLOATS_OF_ONE, n);
    } else {
        put_delete(out, at, id);
    }
}

// The entry at place i: epoch offset op.
fn put_entry(out: &mut [u8], at: usize, s: &[u8], base: usize, count: usize, i: usize)
    requires { Sends s.now base count × (i < count)
        × (at + (16 + op_size (eqb (get_or s.now (base + 24576 + i) 0) 1) (get_or s.now (base + 25600 + i) 0)) ≤ length out.old) }
    ensures { out.new ≡ sets out.old at (entry_sent (store_columns s.now base count) i) }
{
    let epoch = num::get8(s, base + i * 8);
    let offset = num::get8(s, base + OFFSETS + i * 8);
    num::put8(out, at, epoch);
    num::put8(out, at + 8, offset);
    put_op(out, at + 16, s, base, count, i);
}

// The bytes that the entries at the places from `from` up to `end` take.
pub fn entries_size(s: &[u8], base: usize, from: usize, end: usize) -> usize
    requires { (from ≤ end) × (end ≤ 1024) × (base + 174080 ≤ length s.now) }
    ensures { (result ≡ rows_size (codes_in s.now base) (lengths_in s.now base) (end - from) from) × (result ≤ 1071104) }
{
    let codes = base + CODES;
    let lengths = base + LENGTHS;
    let mut total: usize = 0;
    for i in from..end {
        total += entry_size(s[codes + i], s[lengths + i]);
    }
    total
}

// These entries, one after the other.
pub fn put_entries(
    out: &mut [u8],
    at: usize,
    s: &[u8],
    base: usize,
    count: usize,
    from: usize,
    end: usize,
)
    requires { Sends s.now base count × (from ≤ end) × (end ≤ count)
        × (at + rows_size (codes_in s.now base) (lengths_in s.now base) (end - from) from ≤ length out.old) }
    ensures { out.new ≡ sets out.old at (entries_sent (store_columns s.now base count) (end - from) from) }
{
    let codes = base + CODES;
    let lengths = base + LENGTHS;
    let mut p = at;
    for i in from..end {
        put_entry(out, p, s, base, count, i);
        p += entry_size(s[codes + i], s[lengths + i]);
    }
}

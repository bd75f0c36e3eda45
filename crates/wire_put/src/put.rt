// Internal: the fields of a message, stored from a position on; the rest of the buffer stays. A caller shows that
// there is room.
ghost use Rattle.std.specs.Prelude.{◌≡◌, true, ◌+◌, ◌-◌, ◌*◌, ◌≤◌, ◌<◌, length, replicate, set};
ghost use Rattle.std.proofs.lemmas.List.Edits.{sets};
ghost use Rattle.spec.specs.Layout.Format.{bytes_of, concat_map, encode, text, code, ◌▸◌};
ghost use Rattle.spec.specs.Layout.Parts.{u64, key_f, op_f, op_value};
ghost use Rattle.wire_put.specs.Fields.{op_bytes, op_fits, request_head};

// One byte.
pub fn put_byte(out: &mut [u8], at: usize, v: u8)
    requires { at < length out.old }
    ensures { out.new ≡ set out.old at v }
{
    out[at] = v;
}

// Bytes as they are.
pub fn put_bytes(out: &mut [u8], at: usize, v: &[u8])
    requires { at + length v.now ≤ length out.old }
    ensures { out.new ≡ sets out.old at v.now }
{
    out[at..at + v.len()].copy_from_slice(v);
}

// n zeros.
fn put_zeros(out: &mut [u8], at: usize, n: usize)
    requires { at + n ≤ length out.old }
    ensures { out.new ≡ sets out.old at (replicate n 0) }
{
    out[at..at + n].fill(0);
}

// A text: its length, its bytes, and zeros up to c.
pub fn put_text(out: &mut [u8], at: usize, c: usize, v: &[u8])
    requires { (at + 1 + c ≤ length out.old) × (length v.now ≤ c) × (c < 256) }
    ensures { out.new ≡ sets out.old at (encode (text c) v.now) }
{
    let n = v.len();
    put_byte(out, at, n as u8);
    put_bytes(out, at + 1, v);
    put_zeros(out, at + 1 + n, c - n);
}

// Numbers of 4 bytes.
pub fn put_words4(out: &mut [u8], at: usize, v: &[u32])
    requires { (at + 4 * length v.now ≤ length out.old) × (length v.now ≤ 65536) }
    ensures { out.new ≡ sets out.old at (concat_map (bytes_of 4) v.now) }
{
    for (i, x) in v.iter().enumerate() {
        num::put4(out, at + 4 * i, *x);
    }
}

// Numbers of 8 bytes.
pub fn put_words8(out: &mut [u8], at: usize, v: &[u64])
    requires { (at + 8 * length v.now ≤ length out.old) × (length v.now ≤ 65536) }
    ensures { out.new ≡ sets out.old at (concat_map (bytes_of 8) v.now) }
{
    for (i, x) in v.iter().enumerate() {
        num::put8(out, at + 8 * i, *x);
    }
}

// A key.
pub fn put_key(out: &mut [u8], at: usize, name: &[u8], shard: u32)
    requires { (at + 37 ≤ length out.old) × (length name.now ≤ 32) }
    ensures { out.new ≡ sets out.old at (encode key_f (name.now, shard)) }
{
    put_text(out, at, 32, name);
    num::put4(out, at + 33, shard);
}

// Code, key and epoch of 20 to 24: 46 bytes.
pub fn put_head(out: &mut [u8], c: u8, name: &[u8], shard: u32, epoch: u64)
    requires { (46 ≤ length out.old) × (length name.now ≤ 32) }
    ensures { out.new ≡ sets out.old 0 (encode (code c ▸ (key_f ▸ u64)) (tt, ((name.now, shard), epoch))) }
{
    put_byte(out, 0, c);
    put_key(out, 1, name, shard);
    num::put8(out, 38, epoch);
}

// Internal: code, index, client, seq and the command's code: 26 bytes.
pub fn put_request_head(out: &mut [u8], index: u64, client: u64, seq: u64, c: u8)
    requires { 26 ≤ length out.old }
    ensures { out.new ≡ sets out.old 0 (request_head index client seq c) }
{
    put_byte(out, 0, 1);
    num::put8(out, 1, index);
    num::put8(out, 9, client);
    num::put8(out, 17, seq);
    put_byte(out, 25, c);
}

// An operation: an Upsert of a vector's bits, or a Delete, of which the bits are not looked at.
pub fn put_op(out: &mut [u8], at: usize, upsert: bool, id: u64, bits: &[u32])
    requires { (at + length (op_bytes upsert id bits.now) ≤ length out.old) × (op_fits upsert (length bits.now) ≡ true) }
    ensures { out.new ≡ sets out.old at (op_bytes upsert id bits.now) }
{
    if upsert {
        let n = bits.len();
        put_byte(out, at, 1);
        num::put8(out, at + 1, id);
        put_byte(out, at + 9, n as u8);
        put_words4(out, at + 10, bits);
    } else {
        put_byte(out, at, 2);
        num::put8(out, at + 1, id);
    }
}

// Internal: one stored operation and one stored entry, as they are sent.
ghost use Rattle.std.specs.Prelude.{◌≡◌, true, map, ◌+◌, ◌*◌, ◌≤◌, ◌<◌, eqb, length, get_or};
ghost use Rattle.std.proofs.lemmas.List.Edits.{sets};
ghost use Rattle.spec.specs.Lists.{every};
ghost use Rattle.spec.specs.Layout.Format.{bytes_of, concat_map};
ghost use Rattle.spec.specs.Node.Wire.{bits_of};
ghost use Rattle.spec.specs.Node.WellFormed.{component};
ghost use Rattle.wire_write.specs.Written.{op_bytes, op_fits, op_size};
ghost use Rattle.log_store.specs.View.{columns};
ghost use Rattle.node_send_entries.specs.Sent.{entry_sent, Sendable};

use spec::Offset;
use wire_write::put::put_byte;

// The bits of components in the domain, 4 bytes each.
fn put_floats(out: &mut [u8], at: usize, v: &[f32])
    requires { (at + 4 * length v.now ≤ length out.old) × (length v.now ≤ 65536) × (every component v.now ≡ true) }
    ensures { out.new ≡ sets out.old at (concat_map (bytes_of 4) (map bits_of v.now)) }
{
    for i in 0..v.len() {
        num::put4(out, at + 4 * i, f32::to_bits(v[i]));
    }
}

// An operation: an Upsert of its components, or a Delete.
pub fn put_stored(out: &mut [u8], at: usize, upsert: bool, id: u64, v: &[f32])
    requires { (at + op_size upsert (length v.now) ≤ length out.old) × (op_fits upsert (length v.now) ≡ true) × (every component v.now ≡ true) }
    ensures { out.new ≡ sets out.old at (op_bytes upsert id (map bits_of v.now)) }
{
    if upsert {
        let n = v.len();
        put_byte(out, at, 1);
        num::put8(out, at + 1, id);
        put_byte(out, at + 9, n as u8);
        put_floats(out, at + 10, v);
    } else {
        put_byte(out, at, 2);
        num::put8(out, at + 1, id);
    }
}

// The entry at place i: epoch offset op.
pub fn put_entry_at(
    out: &mut [u8],
    at: usize,
    epochs: &[u64],
    offsets: &[u64],
    ids: &[u64],
    codes: &[u8],
    lengths: &[u8],
    floats: &[f32],
    count: usize,
    i: usize,
)
    requires { (Sendable (columns epochs.now offsets.now ids.now codes.now lengths.now floats.now) count) × (i < count)
        × (at + (16 + op_size (eqb (get_or codes.now i 0) 1) (get_or lengths.now i 0)) ≤ length out.old) }
    ensures { out.new ≡ sets out.old at (entry_sent (columns epochs.now offsets.now ids.now codes.now lengths.now floats.now) i) }
{
    let offset = Offset((i + 1) as u64);
    let v = log_store::components(codes, lengths, floats, count, offset);
    num::put8(out, at, epochs[i]);
    num::put8(out, at + 8, offsets[i]);
    put_stored(out, at + 16, codes[i] == 1, ids[i], v);
}

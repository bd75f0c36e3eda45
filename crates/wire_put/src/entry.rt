// Internal: the entries of 22 and the lists of 10, one at a time. Written one after the other behind a count they are
// the whole (columns.rt, lists.rt).
ghost use Rattle.std.specs.Prelude.{◌≡◌, true, ◌+◌, ◌*◌, ◌≤◌, length};
ghost use Rattle.std.proofs.lemmas.List.Edits.{sets};
ghost use Rattle.spec.specs.Layout.Format.{encode, many};
ghost use Rattle.spec.specs.Layout.Parts.{entry_f, entry_value, u64};
ghost use Rattle.wire_put.specs.Entries.{entry_given};
ghost use Rattle.wire_put.specs.Fields.{op_fits, wire_of};

use crate::put::{put_byte, put_op, put_words8};
use spec::{Epoch, Offset};

// One entry: epoch offset op. It takes 16 bytes more than its operation (`fit::op_size`).
pub fn put_entry(
    out: &mut [u8],
    at: usize,
    epoch: Epoch,
    offset: Offset,
    upsert: bool,
    id: u64,
    bits: &[u32],
)
    requires { (at + length (encode entry_f (entry_value (entry_given epoch offset (wire_of upsert id bits.now)))) ≤ length out.old) × (op_fits upsert (length bits.now) ≡ true) }
    ensures { out.new ≡ sets out.old at (encode entry_f (entry_value (entry_given epoch offset (wire_of upsert id bits.now)))) }
{
    num::put8(out, at, epoch.0);
    num::put8(out, at + 8, offset.0);
    put_op(out, at + 16, upsert, id, bits);
}

// One list of a placement: a count byte and the nodes.
pub fn put_list(out: &mut [u8], at: usize, nodes: &[u64])
    requires { (at + 1 + 8 * length nodes.now ≤ length out.old) × (length nodes.now ≤ 8) }
    ensures { out.new ≡ sets out.old at (encode (many 1 0 8 u64) nodes.now) }
{
    let n = nodes.len();
    put_byte(out, at, n as u8);
    put_words8(out, at + 1, nodes);
}

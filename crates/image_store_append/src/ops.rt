// A store one entry longer, by an operation of a message: Upsert or Delete. Internal: the store has been tested, and so has the vector.
ghost use Rattle.std.specs.Prelude.{◌≡◌, true, ◌<◌};
ghost use Rattle.spec.specs.Node.Wire.{op_in_domain};
ghost use Rattle.log_domain.specs.Parts.{op_in, OpThere};
ghost use Rattle.image_store.specs.Image.{well_formed_image};
ghost use Rattle.image_store_check.specs.Test.{Stands};
ghost use Rattle.image_store_append.specs.Put.{Grown, entry_by};

use crate::entries::{append_delete, append_upsert};
use wire_read::OpPart;

// Answers how many rows the table has then.
pub fn append_op(
    out: &mut [u8],
    base: usize,
    count: usize,
    stored: usize,
    epoch: u64,
    s: &[u8],
    op: OpPart,
) -> usize
    requires { (count < 1024) × Stands out.old base × (well_formed_image out.old base count stored ≡ true) × OpThere s.now op
        × (op_in_domain (op_in s.now op) ≡ true) }
    ensures { Grown out.old out.new base count (entry_by epoch count s.now op) result }
{
    match op {
        OpPart::Upsert { id, vector } => append_upsert(
            out, base, count, stored, epoch, id, s, vector.at, vector.len,
        ),
        OpPart::Delete { id } => append_delete(out, base, count, stored, epoch, id),
    }
}

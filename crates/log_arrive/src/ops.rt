// An operation of a message as a store takes it: its code, its id, and the bits of its components in a lent column.
// Internal: the message was read.
ghost use Rattle.std.specs.Prelude.{◌≡◌, ◌+◌, ◌*◌, ◌≤◌, length, take};
ghost use Rattle.log_arrive.specs.Parts.{bits_in, op_in, OpThere};
ghost use Rattle.log_arrive.specs.Arrivals.{Reads};

use wire_read::parts::component;
use wire_read::{OpPart, Part};

// 1 is an Upsert of n components, 2 a Delete.
#[derive(Clone, Copy)]
pub struct OpRead {
    pub code: u8,
    pub id: u64,
    pub n: usize,
}

// The bits of a vector's components, into the first places of a column; its other places are free.
fn read_bits(s: &[u8], v: Part, out: &mut [u32])
    requires { (v.at + v.len * 4 ≤ length s.now) × (v.len ≤ length out.old) }
    ensures { (length out.new ≡ length out.old) × (take v.len out.new ≡ bits_in s.now v) }
{
    let n = v.len;
    for i in 0..n {
        out[i] = component(s, v, i);
    }
}

// The operation, with its bits in a column of 32.
pub fn read_op(s: &[u8], o: OpPart, out: &mut [u32]) -> OpRead
    requires { (OpThere s.now o) × (length out.old ≡ 32) }
    ensures { Reads (op_in s.now o) result out.new }
{
    match o {
        OpPart::Upsert { id, vector } => {
            read_bits(s, vector, out);
            OpRead {
                code: 1,
                id: id,
                n: vector.len,
            }
        }
        OpPart::Delete { id } => OpRead {
            code: 2,
            id: id,
            n: 0,
        },
    }
}

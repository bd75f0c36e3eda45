// The columns of a log (paper 01, 'The log'): one more entry, with its components written into the next free stretch of
// the lent floats. Internal: callers have proved what is required.

ghost use Rattle.std.specs.Prelude.{◌≡◌, true, ℕ, ◌+◌, ◌*◌, ◌≤◌, ◌<◌, length};
ghost use Rattle.spec.specs.Lists.{every};
ghost use Rattle.spec.specs.Nearest.Order.{bits_in_domain};
ghost use Rattle.spec.specs.Node.Wire.{floats_of};
ghost use Rattle.log_store.specs.View.{columns, Room, written};

use spec::Epoch;

// The bits of components, tested before, written as floats.
fn write_vector(dst: &mut [f32], bits: &[u32])
    requires { (length dst.old ≡ length bits.now) × (every bits_in_domain bits.now ≡ true) }
    ensures { dst.new ≡ floats_of bits.now }
{
    for i in 0..dst.len() {
        dst[i] = f32::from_bits(bits[i]);
    }
}

// One entry more, at place `count`: the next free stretch of the floats is lent on to the writer. A Delete has no bits.
pub fn write_entry(
    epochs: &mut [u64],
    offsets: &mut [u64],
    ids: &mut [u64],
    codes: &mut [u8],
    lengths: &mut [u8],
    floats: &mut [f32],
    count: usize,
    epoch: Epoch,
    code: u8,
    id: u64,
    bits: &[u32],
)
    requires { (Room (columns epochs.old offsets.old ids.old codes.old lengths.old floats.old) count) × (count < 1024)
        × (length bits.now ≤ 32) × (every bits_in_domain bits.now ≡ true) }
    ensures { columns epochs.new offsets.new ids.new codes.new lengths.new floats.new
        ≡ written (columns epochs.old offsets.old ids.old codes.old lengths.old floats.old)
        count epoch.0 code id bits.now }
{
    let n = bits.len();
    let start = count * 32;
    write_vector(&mut floats[start..start + n], bits);
    epochs[count] = epoch.0;
    offsets[count] = (count + 1) as u64;
    ids[count] = id;
    codes[count] = code;
    lengths[count] = n as u8;
}

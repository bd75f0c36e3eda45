// Internal: sums of powers within 64 bits.
ghost use Rattle.std.specs.Prelude.{◌≡◌, ◌*◌, ◌+◌, leb};
ghost use Rattle.spec.specs.Limits.{max_u64};
ghost use Rattle.image_map_count.specs.Read.{SumAs};

use crate::Summed;

// Whether the next sum is within 64 bits.
fn next_fits(sum: u64, base: u64) -> bool
    ensures { result ≡ leb (sum * base + 1) max_u64 }
{
    if base == 0 {
        return true;
    }
    let most = 18446744073709551614 / base;
    sum <= most
}

// 1 + b + .. + bⁿ. The sum never falls, so the first step that does not fit decides.
pub fn geometric(base: u64, n: u32) -> Summed
    ensures { SumAs base n result }
{
    let mut sum: u64 = 1;
    let mut last: u64 = 1;
    for i in 0..n {
        if !next_fits(sum, base) {
            return Summed {
                fits: false,
                sum: 0,
                last: 0,
            };
        }
        let next = sum * base + 1;
        last = next - sum;
        sum = next;
    }
    Summed {
        fits: true,
        sum: sum,
        last: last,
    }
}

// Signed numbers as a sign and a size, so that the rest works on whole numbers alone. Internal.
ghost use Rattle.std.specs.Prelude.{◌≡◌, pos, neg_ℤ, nat_abs};
ghost use Rattle.spec_position.specs.Positions.{is_minus};
ghost use Rattle.spec_position.specs.Sizes.{sizes_within};
ghost use Rattle.num_position.specs.Sizes.{sized_of};

use spec_position::Position;

#[derive(Drop)]
pub struct Signed {
    pub minus: bool,
    pub size: u64,
}

// Of a position in range: a right ascension is never below zero. `minus` is declination's.
#[derive(Drop)]
pub struct Sizes {
    pub ra: u32,
    pub minus: bool,
    pub dec: u32,
}

// One less than the size of a number below zero always fits.
pub fn split(z: i64) -> Signed
    ensures { (result.minus ≡ is_minus z) × (result.size ≡ nat_abs z) }
{
    if z < 0 {
        let less = -1 - z;
        return Signed {
            minus: true,
            size: less as u64 + 1,
        };
    }
    Signed {
        minus: false,
        size: z as u64,
    }
}

// Whether a right ascension and a declination of these sizes are in range.
fn sizes_within(minus: bool, ra: u64, dec: u64) -> bool
    ensures { result ≡ sizes_within minus ra dec }
{
    if minus {
        return false;
    }
    if 1295999985 < ra {
        return false;
    }
    dec <= 324000000
}

// The sizes of a position, where it is in range.
pub fn sizes_of(p: Position) -> Option<Sizes>
    ensures { result ≡ sized_of p }
{
    let ra = split(p.ra);
    let dec = split(p.dec);
    if !sizes_within(ra.minus, ra.size, dec.size) {
        return None;
    }
    Some(Sizes {
        ra: ra.size as u32,
        minus: dec.minus,
        dec: dec.size as u32,
    })
}

// A size with a plus.
pub fn plain(n: u32) -> i64
    ensures { result ≡ pos n }
{
    n as i64
}

// A size with a minus.
pub fn negated(n: u32) -> i64
    ensures { result ≡ neg_ℤ (pos n) }
{
    0 - (n as i64)
}

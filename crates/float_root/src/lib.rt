// Paper 01, 'Nearest objects': the f32 nearest the exact root, worked out in whole numbers.
// A positive float is 24 binary digits times a power of two. The digits, with one bit more where the power is odd, are
// a number of 47 or 48 bits; the whole number nearest its root has 24 bits again, those of the answer.
#![tactic(auto)]

ghost use Rattle.std.specs.Prelude.{◌≡◌, ◌+◌, ◌*◌, ◌^◌, ◌<◌, ◌≤◌, T, to_bits};
ghost use Rattle.std.specs.Float.{binary32};
ghost use Rattle.spec.specs.Nearest.Order.{units_of};
ghost use Rattle.spec.specs.Nearest.Root.{sqrt, rootable};
ghost use Rattle.float_root.specs.Digits.{near_root, IsNormal, Radicand};

// A positive finite value: 24 digits, times 2 ^ (power - 128) units of the smallest value.
#[derive(Drop)]
pub struct Normal {
    pub digits: u32,
    pub power: u32,
}

// Paper 01: of a subnormal's fraction, the count of leading zeros places its highest one bit.
fn normalised(b: u32) -> Normal
    requires { (0 < b) × (b < 2139095040) }
    ensures { IsNormal (units_of b) result.digits result.power }
{
    let e = b / 8388608;
    let t = b % 8388608;
    if e == 0 {
        let s = u32::leading_zeros(t) - 8;
        Normal {
            digits: t << s,
            power: 128 - s,
        }
    } else {
        Normal {
            digits: t + 8388608,
            power: e + 127,
        }
    }
}

// The number whose root has the answer's digits: the value without a power of four.
fn radicand(m: u64, j: u32) -> u64
    requires { (2 ^ 23 ≤ m) × (m < 2 ^ 24) × (2 ≤ j) }
    ensures { Radicand m j result }
{
    if j % 2 == 0 {
        m * 8388608
    } else {
        m * 16777216
    }
}

// The root of m * 2 ^ 23 or of m * 2 ^ 24, right to 13 bits, by a polynomial. Only its size is proved: whatever it
// gives, `raised` and `lowered` settle the answer, and a good guess leaves them nothing to do.
fn guess(m: u64, j: u32) -> u64
    requires { m < 2 ^ 24 }
    ensures { (3000000 ≤ result) × (result < 2 ^ 25) }
{
    let a = 3065996 - m * 418381 / 8388608;
    let b = 13219183 - m * a / 8388608;
    let r = 6206838 + m * b / 8388608;
    if j % 2 == 0 {
        r / 2
    } else {
        r * 11863283 / 16777216
    }
}

// From below: the first number from q on that the root does not pass by more than a half.
fn raised(n: u64, q: u64) -> u64
    requires { (n < 2 ^ 48) × (q < 2 ^ 26) }
    ensures { (n ≤ result * result + result) × (result < 2 ^ 26) }
{
    let mut r = q;
    // Stays a while: it counts no index, and how far `r` goes is what the loop finds.
    while r * r + r < n {
        r += 1;
    }
    r
}

// From above: the last number down from q that passes the root by less than a half.
fn lowered(n: u64, q: u64) -> u64
    requires { (0 < n) × (n < 2 ^ 48) × (q < 2 ^ 26) × (n ≤ q * q + q) }
    ensures { (n ≤ result * result + result) × (result * result < n + result) }
{
    let mut r = q;
    // Stays a while: it counts no index, and how far `r` goes is what the loop finds.
    while n + r <= r * r {
        r -= 1;
    }
    r
}

// The whole number nearest to the root of n: one step of Newton's from the guess g, rounded, then settled.
fn near_root(n: u64, g: u64) -> u64
    requires { (0 < n) × (n < 2 ^ 48) × (3000000 ≤ g) × (g < 2 ^ 25) }
    ensures { result ≡ near_root n }
{
    let q = (8 * g + 8 * n / g + 8) / 16;
    lowered(n, raised(n, q))
}

// The root of a finite float above zero, as nearly every sum of squares in the domain is.
fn plus_root(x: f32) -> f32
    requires { T (rootable x) × (0 < to_bits binary32 x) }
    ensures { result ≡ sqrt binary32 x }
{
    let d = normalised(f32::to_bits(x));
    let m = d.digits as u64;
    let j = d.power;
    let q = near_root(radicand(m, j), guess(m, j));
    f32::from_bits((j / 2 - 1) * 8388608 + (q as u32))
}

// Internal: IEEE 754's squareRoot of any float: the zeros and plus infinity are their own roots, and a NaN or a float below
// zero has none but a NaN. One test tells the patterns above +0 and below the infinity's from the others.
pub fn sqrt_f32(x: f32) -> f32
    ensures { result ≡ sqrt binary32 x }
{
    if x != x {
        return x;
    }
    let b = f32::to_bits(x);
    if std::num::wrapping_sub_u32(b, 1) < 0x7f7f_ffff {
        return plus_root(x);
    }
    if b == 0 {
        return x;
    }
    if b == 0x7f80_0000 {
        return x;
    }
    if b == 0x8000_0000 {
        return x;
    }
    0.0 / 0.0
}

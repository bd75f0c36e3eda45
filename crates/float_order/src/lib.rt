// Paper 01, 'Nearest objects': the tests for the domain, totalOrder by IEEE 754's classes, and the order of neighbours. All
// comparisons of neighbours go through `nearer`.
#![tactic(auto)]

ghost use Rattle.std.specs.Prelude.{◌≡◌, not, T};
ghost use Rattle.std.specs.Float.Ieee.{is_nan};
ghost use Rattle.spec.specs.Nearest.Order.{class, before, in_domain, bits_in_domain};
ghost use Rattle.float_order.specs.Classes.{shown, place_of};
ghost use Rattle.spec.specs.Nearest.Search as Search;

// IEEE 754's classes of binary32, from the lowest of totalOrder to the highest (5.10).
#[derive(Drop)]
pub enum Class {
    NegNan,
    NegInf,
    NegNumber,
    NegZero,
    PosZero,
    PosNumber,
    PosInf,
    PosNan,
}

// Internal: the class of a pattern. Below the infinity's pattern stand the numbers, subnormal ones among them, above it the
// NaNs.
pub fn class_of(b: u32) -> Class
    ensures { result ≡ shown (class b) }
{
    if b < 0x8000_0000 {
        if b == 0 {
            return Class::PosZero;
        }
        if b < 0x7f80_0000 {
            return Class::PosNumber;
        }
        if b == 0x7f80_0000 {
            return Class::PosInf;
        }
        return Class::PosNan;
    }
    if b == 0x8000_0000 {
        return Class::NegZero;
    }
    if b < 0xff80_0000 {
        return Class::NegNumber;
    }
    if b == 0xff80_0000 {
        return Class::NegInf;
    }
    Class::NegNan
}

// A class's place.
fn rank(c: Class) -> u8
    ensures { result ≡ place_of c }
{
    match c {
        Class::NegNan => 0,
        Class::NegInf => 1,
        Class::NegNumber => 2,
        Class::NegZero => 3,
        Class::PosZero => 4,
        Class::PosNumber => 5,
        Class::PosInf => 6,
        Class::PosNan => 7,
    }
}

// totalOrder by the standard's cases: by class, and within a class by the bits, the larger pattern first where the sign is
// minus and last where it is plus.
fn by_class(a: u32, b: u32) -> bool
    ensures { result ≡ before a b }
{
    let x = rank(class_of(a));
    let y = rank(class_of(b));
    if x != y {
        return x < y;
    }
    if 0x8000_0000 <= a {
        return b < a;
    }
    a < b
}

// Internal: totalOrder of two patterns, NaNs among them. Under plus signs the classes stand as their patterns do, so that
// the distances of a search, hardly ever below zero, are compared at once.
pub fn before_bits(a: u32, b: u32) -> bool
    ensures { result ≡ before a b }
{
    if a < 0x8000_0000 {
        if b < 0x8000_0000 {
            return a < b;
        }
    }
    by_class(a, b)
}

// Internal: whether a is nearer than b, by distance and then by the lower id. A NaN has no pattern of its own, and none
// arises in the domain.
pub fn nearer(a: spec::Neighbor, b: spec::Neighbor) -> bool
    requires { T (not (is_nan a.distance)) × T (not (is_nan b.distance)) }
    ensures { result ≡ Search.nearer a b }
{
    let x = f32::to_bits(a.distance);
    let y = f32::to_bits(b.distance);
    if x == y {
        return a.id < b.id;
    }
    before_bits(x, y)
}

// Internal: whether a component that came as bits lies in the domain. The patterns of NaNs and infinities do not.
pub fn bits_in_domain(b: u32) -> bool
    ensures { result ≡ bits_in_domain b }
{
    b % 0x8000_0000 <= 0x4f80_0000
}

// Internal: whether a stored float lies in the domain. Both comparisons are false at a NaN.
pub fn in_domain(x: f32) -> bool
    ensures { result ≡ in_domain x }
{
    x <= 4294967296.0 && -4294967296.0 <= x
}

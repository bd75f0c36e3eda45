// The three answers as bytes, from a buffer's start on. Internal: a caller shows that there is room.
ghost use Rattle.std.specs.Prelude.{◌≡◌, ◌≤◌, length};
ghost use Rattle.std.proofs.lemmas.List.Edits.{sets};
ghost use Rattle.num_position.specs.Answers.{components_of};
ghost use Rattle.calls_position.specs.Calls.{Numbers, fields_bytes, pattern_of, position_bytes, vector_bytes};

use num_position::Vector;
use num_position::signed::split;
use spec_position::{Fields, Position};
use wire_put::put::{put_byte, put_words4, put_words8};

// An i64 as bytes have it: a number below zero counts down from 2^64.
fn pattern(z: i64) -> u64
    ensures { result ≡ pattern_of z }
{
    let s = split(z);
    if s.minus {
        return 18446744073709551615 - (s.size - 1);
    }
    s.size
}

pub fn put_position(out: &mut [u8], p: Position)
    requires { 16 ≤ length out.old }
    ensures { out.new ≡ sets out.old 0 (position_bytes p) }
{
    let words = [pattern(p.ra), pattern(p.dec)];
    put_words8(out, 0, &words);
}

pub fn put_fields(out: &mut [u8], f: Fields)
    requires { 28 ≤ length out.old }
    ensures { out.new ≡ sets out.old 0 (fields_bytes f) }
{
    let words = [
        f.hours,
        f.minutes,
        f.thousandths,
        f.minus,
        f.degrees,
        f.arcminutes,
        f.arcthousandths,
    ];
    put_words4(out, 0, &words);
}

pub fn put_vector(out: &mut [u8], v: Vector)
    requires { (17 ≤ length out.old) × Numbers (components_of v) }
    ensures { out.new ≡ sets out.old 0 (vector_bytes (components_of v)) }
{
    let words = [
        f32::to_bits(v.0),
        f32::to_bits(v.1),
        f32::to_bits(v.2),
        f32::to_bits(v.3),
    ];
    put_byte(out, 0, 4);
    put_words4(out, 1, &words);
}

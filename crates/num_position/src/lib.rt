// Paper 02, 2.7: positions in hours and degrees, by value. Right ascension in hours, minutes and thousandths of seconds and declination in sign,
// degrees, arcminutes and thousandths of arcseconds become whole milliarcseconds, and back; and milliarcseconds become the four floats of a vector.
// A search measures these floats as they are: nothing wraps around at 24 hours. What an answer says stands in specs/Positions.antt of crate
// spec_position, and specs/Answers.antt here reads it off each case.
#![tactic(auto)]

ghost use Rattle.std.specs.Prelude.{◌≡◌};
ghost use Rattle.spec_position.specs.Positions.{to_position, to_fields, to_vector};
ghost use Rattle.num_position.specs.Answers.{placed, fielded, vectored};

use crate::floats::float_of;
use crate::parts::{fields_of, in_range, thousandths_of};
use crate::signed::{negated, plain, sizes_of};
use spec_position::{Fields, Position};

mod floats;
mod parts;
pub mod signed;

// Right ascension's whole arcseconds and left-over thousandths, then declination's.
#[derive(Drop)]
pub struct Vector(pub f32, pub f32, pub f32, pub f32);

// Why a position has no fields: 30 and 31.
#[derive(Clone, Copy, PartialEq, Eq, Debug)]
pub enum Refusal {
    OutOfRange,
    NoThousandth,
}

// The milliarcseconds of fields; None is 30.
pub fn to_position(f: Fields) -> Option<Position>
    ensures { placed result ≡ to_position f }
{
    if !in_range(f) {
        return None;
    }
    let ra = plain(thousandths_of(f.hours, f.minutes, f.thousandths) * 15);
    let size = thousandths_of(f.degrees, f.arcminutes, f.arcthousandths);
    if f.minus == 0 {
        let dec = plain(size);
        return Some(Position { ra, dec });
    }
    let dec = negated(size);
    Some(Position { ra, dec })
}

// The fields of milliarcseconds. 30 of either coordinate comes before 31.
pub fn to_fields(p: Position) -> Result<Fields, Refusal>
    ensures { fielded result ≡ to_fields p }
{
    let sizes = sizes_of(p).ok_or(Refusal::OutOfRange)?;
    if sizes.ra % 15 != 0 {
        return Err(Refusal::NoThousandth);
    }
    Ok(fields_of(sizes.ra / 15, sizes.minus, sizes.dec))
}

// The floats of milliarcseconds, which need be no whole thousandths of seconds; None is 30.
pub fn to_vector(p: Position) -> Option<Vector>
    ensures { vectored result ≡ to_vector p }
{
    let sizes = sizes_of(p)?;
    let a = float_of(false, sizes.ra / 1000);
    let b = float_of(false, sizes.ra % 1000);
    let c = float_of(sizes.minus, sizes.dec / 1000);
    let d = float_of(sizes.minus, sizes.dec % 1000);
    Some(Vector(a, b, c, d))
}

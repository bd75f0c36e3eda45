// Positions as a host asks for them (paper 02, 2.7): numbers in, and the answer in one lent buffer, least significant byte first. 30 comes first,
// then 31, and 23 last, where the buffer is too short. A refused call leaves every byte; what lies behind an answer stays. What an answer says
// stands in specs/Calls.antt.
#![tactic(auto)]

ghost use Rattle.calls_position.specs.Calls.{Divides, Places, Vectors};

use crate::stored::{put_fields, put_position, put_vector};
use num_position::{Refusal, to_fields, to_position, to_vector};
use spec_position::{Fields, Position};

mod stored;

// 16 bytes: right ascension and declination in milliarcseconds, i64 each. 30, 23.
pub fn position(
    hours: u32,
    minutes: u32,
    thousandths: u32,
    minus: u32,
    degrees: u32,
    arcminutes: u32,
    arcthousandths: u32,
    position: &mut [u8],
) -> u32
    ensures { Places hours minutes thousandths minus degrees arcminutes arcthousandths position.old position.new result }
{
    let fields = Fields {
        hours,
        minutes,
        thousandths,
        minus,
        degrees,
        arcminutes,
        arcthousandths,
    };
    let Some(p) = to_position(fields) else {
        return 30;
    };
    if position.len() < 16 {
        return 23;
    }
    put_position(position, p);
    0
}

// 28 bytes: the seven fields, u32 each. 30, 31, 23.
pub fn position_fields(ra: i64, dec: i64, fields: &mut [u8]) -> u32
    ensures { Divides ra dec fields.old fields.new result }
{
    let at = Position { ra, dec };
    match to_fields(at) {
        Ok(f) => {
            if fields.len() < 28 {
                return 23;
            }
            put_fields(fields, f);
            0
        }
        Err(Refusal::OutOfRange) => 30,
        Err(Refusal::NoThousandth) => 31,
    }
}

// 17 bytes: the vector as a Write has it, 04 and the patterns of four floats. 30, 23.
pub fn position_vector(ra: i64, dec: i64, vector: &mut [u8]) -> u32
    ensures { Vectors ra dec vector.old vector.new result }
{
    let at = Position { ra, dec };
    let Some(v) = to_vector(at) else {
        return 30;
    };
    if vector.len() < 17 {
        return 23;
    }
    put_vector(vector, v);
    0
}

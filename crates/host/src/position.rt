// Positions in hours and degrees (paper 02, 2.7).
ghost use Rattle.calls_position.specs.Calls.{Divides, Places, Vectors};

pub fn catalogue_position(
    hours: u32,
    minutes: u32,
    thousandths: u32,
    minus: u32,
    degrees: u32,
    arcminutes: u32,
    arcthousandths: u32,
    position: &mut [u8],
) -> u32
    ensures { Places hours minutes thousandths minus degrees arcminutes arcthousandths position.old position.new result }
{
    calls_position::position(
        hours,
        minutes,
        thousandths,
        minus,
        degrees,
        arcminutes,
        arcthousandths,
        position,
    )
}

pub fn catalogue_position_fields(ra: i64, dec: i64, fields: &mut [u8]) -> u32
    ensures { Divides ra dec fields.old fields.new result }
{
    calls_position::position_fields(ra, dec, fields)
}

pub fn catalogue_position_vector(ra: i64, dec: i64, vector: &mut [u8]) -> u32
    ensures { Vectors ra dec vector.old vector.new result }
{
    calls_position::position_vector(ra, dec, vector)
}

// Sizes in sixtieths: hours or degrees, minutes of either, and thousandths of their seconds. Internal.
ghost use Rattle.std.specs.Prelude.{◌≡◌, ◌≤◌};
ghost use Rattle.spec_position.specs.Positions.{fields_by, in_range, thousandths_of};

use spec_position::Fields;

// All thousandths of seconds.
pub fn thousandths_of(whole: u32, minutes: u32, thousandths: u32) -> u32
    requires { (whole ≤ 90) × (minutes ≤ 59) × (thousandths ≤ 59999) }
    ensures { result ≡ thousandths_of whole minutes thousandths }
{
    (whole * 60 + minutes) * 60000 + thousandths
}

// Whether each field has a number that it may have.
pub fn in_range(f: Fields) -> bool
    ensures { result ≡ in_range f }
{
    if 23 < f.hours {
        return false;
    }
    if 59 < f.minutes {
        return false;
    }
    if 59999 < f.thousandths {
        return false;
    }
    if 90 < f.degrees {
        return false;
    }
    if 59 < f.arcminutes {
        return false;
    }
    if 59999 < f.arcthousandths {
        return false;
    }
    let size = thousandths_of(f.degrees, f.arcminutes, f.arcthousandths);
    if 324000000 < size {
        return false;
    }
    if 1 < f.minus {
        return false;
    }
    // a minus, 1, before zero
    if size < f.minus {
        return false;
    }
    true
}

// The fields of a right ascension of `time` thousandths of seconds and a declination of `size` thousandths of arcseconds.
pub fn fields_of(time: u32, minus: bool, size: u32) -> Fields
    ensures { result ≡ fields_by time minus size }
{
    Fields {
        hours: time / 3600000,
        minutes: time / 60000 % 60,
        thousandths: time % 60000,
        minus: minus as u32,
        degrees: size / 3600000,
        arcminutes: size / 60000 % 60,
        arcthousandths: size % 60000,
    }
}

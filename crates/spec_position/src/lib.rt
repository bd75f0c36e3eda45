// Paper 02, 2.7: positions in hours and degrees, as definitions and their laws. This file holds no function, only the two kinds that code and
// definitions share; the code stands in num_position, the calls for hosts in calls_position.

// What an editor types. `minus` is 0 for a plus and 1 for a minus.
#[derive(Clone, Copy)]
pub struct Fields {
    pub hours: u32,
    pub minutes: u32,
    pub thousandths: u32,
    pub minus: u32,
    pub degrees: u32,
    pub arcminutes: u32,
    pub arcthousandths: u32,
}

// Milliarcseconds.
#[derive(Clone, Copy)]
pub struct Position {
    pub ra: i64,
    pub dec: i64,
}

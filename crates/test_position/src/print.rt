// Answers as text.

fn wide(x: u8) -> u64 {
    x as u64
}

// An i64 as its bytes have it.
fn print_signed(v: u64) {
    if v <= 9223372036854775807 {
        io::print_decimal(1, v);
        return;
    }
    io::write_all(1, b"-");
    io::print_decimal(1, 18446744073709551615 - v + 1);
}

pub fn print_place(said: u32, place: &[u8; 16]) {
    if said == 0 {
        print_signed(num::get8(place, 0));
        io::write_all(1, b" ");
        print_signed(num::get8(place, 8));
        io::write_all(1, b"\n");
        return;
    }
    io::print_decimal(1, said as u64);
    io::write_all(1, b"\n");
}

pub fn print_fields(said: u32, fields: &[u8; 28]) {
    if said != 0 {
        io::print_decimal(1, said as u64);
        return;
    }
    for i in 0..7 {
        if 0 < i {
            io::write_all(1, b" ");
        }
        io::print_decimal(1, num::get4(fields, 4 * i) as u64);
    }
}

// The count, and the floats' patterns.
pub fn print_vector(said: u32, vector: &[u8; 17]) {
    io::write_all(1, b" ");
    if said != 0 {
        io::print_decimal(1, said as u64);
        return;
    }
    io::print_decimal(1, wide(vector[0]));
    for i in 0..4 {
        io::write_all(1, b" ");
        io::print_hex(1, num::get4(vector, 1 + 4 * i) as u64, 8);
    }
}

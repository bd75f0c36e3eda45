// The words of a line: a space, and a number in decimal, or bytes and a float's bits in hexadecimal.

// A message's kind, two hexadecimal digits with no space before.
pub fn kind(code: u64) {
    io::print_hex(1, code, 2);
}

pub fn number(n: u64) {
    io::write_all(1, b" ");
    io::print_decimal(1, n);
}

// Eight digits.
pub fn bits(b: u32) {
    io::write_all(1, b" ");
    io::print_hex(1, b as u64, 8);
}

fn byte(b: u8) {
    io::print_hex(1, b as u64, 2);
}

fn digits(b: &[u8]) {
    for x in b {
        byte(*x);
    }
}

// A name, an address or a Bench's bytes; `-` where there are none.
pub fn bytes(b: &[u8]) {
    if b.len() == 0 {
        io::write_all(1, b" -");
        return;
    }
    io::write_all(1, b" ");
    digits(b);
}

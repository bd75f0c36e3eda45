// Words and numbers of a line, and the lines of a search.

pub fn word(w: &[u8]) -> bool {
    io::write_all(1, w)
}

// A space, and a number.
pub fn number(n: u64) {
    io::write_all(1, b" ");
    io::print_decimal(1, n);
}

// A word and a number.
pub fn line(w: &[u8], n: u64) -> bool {
    io::write_all(1, w);
    number(n);
    io::write_all(1, b"\n")
}

pub fn refused(x: u8) -> bool {
    line(b"refused", x as u64)
}

// No NaN is stored or found; it has no bits of its own.
fn bits_of(x: f32) -> u32 {
    if x == x {
        return f32::to_bits(x);
    }
    0
}

// Eight digits.
fn digits(b: u32) {
    io::write_all(1, b" ");
    io::print_hex(1, b as u64, 8);
}

fn bits(x: f32) {
    digits(bits_of(x));
}

// The components of a vector.
pub fn row(v: &[f32]) {
    for x in v {
        bits(*x);
    }
}

fn hit(id: u64, distance: f32) {
    io::print_decimal(1, id);
    bits(distance);
    io::write_all(1, b"\n");
}

pub fn hits(found: &[u64], distances: &[f32], n: usize) -> bool {
    line(b"found", n as u64);
    for i in 0..n {
        if found.len() <= i {
            return false;
        }
        if distances.len() <= i {
            return false;
        }
        hit(found[i], distances[i]);
    }
    true
}

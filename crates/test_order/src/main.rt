// Replays the oracle's stored comparisons: pairs of bit patterns of four bytes each on standard input, NaNs among them,
// and a line with the answer for each pair on standard output. stdin and stdout are oracle/stored/order/finite.in,
// nan.in and classes.in, and their .out, one after the other; classes has every pair of the patterns at the classes' edges.
#![tactic(auto)]

fn compare(a: u32, b: u32) {
    if float_distance::order::before_bits(a, b) {
        io::write_all(1, b"less\n");
        return;
    }
    if float_distance::order::before_bits(b, a) {
        io::write_all(1, b"greater\n");
        return;
    }
    io::write_all(1, b"equal\n");
}

fn replay(s: &[u8]) {
    let (pairs, _) = s.as_chunks::<8>();
    for pair in pairs {
        compare(num::get4(pair, 0), num::get4(pair, 4));
    }
}

fn main() {
    let mut buf = io::large_buffer();
    let n = io::read_full(0, &mut buf);
    replay(&buf[..n]);
}

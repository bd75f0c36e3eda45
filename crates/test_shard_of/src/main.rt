// Replays the oracle's stored shard numbers: an id of eight bytes and a count of four on standard input, and a line with
// the shard that holds the id on standard output. stdin and stdout are oracle/stored/shardof/all.in and all.out, the
// answers of the Rust's shard_of.
#![tactic(auto)]

fn print(r: u32) {
    io::print_decimal(1, r as u64);
    io::write_all(1, b"\n");
}

fn replay(s: &[u8]) {
    let (asked, _) = s.as_chunks::<12>();
    for a in asked {
        print(wire_read::placed::shard_of(num::get8(a, 0), num::get4(a, 8)));
    }
}

fn main() {
    let mut buf = io::large_buffer();
    let n = io::read_full(0, &mut buf);
    replay(&buf[..n]);
}

// The words of a line: a space, and a number in decimal, or bytes and a key in hexadecimal.
ghost use Rattle.std.specs.Prelude.{◌≤◌};

use map_tables::names::name_size;
use map_tables::{Name, ShardKey};

pub fn byte(b: u8) {
    io::print_hex(1, b as u64, 2);
}

// The bytes of a name.
fn name_bytes(x: Name, n: usize)
    requires { n ≤ 32 }
{
    for b in &x.bytes[..n] {
        byte(*b);
    }
}

// `-` where it is empty.
pub fn name(x: Name) {
    let n = name_size(x);
    if n == 0 {
        io::write_all(1, b" -");
        return;
    }
    io::write_all(1, b" ");
    name_bytes(x, n);
}

// The bytes of a name that are free on the wire are 0, whatever the struct holds there.
fn filled(n: usize) {
    for _ in n..32 {
        byte(0);
    }
}

// Four bytes, the least significant first.
fn low_first(n: u32) {
    byte((n % 256) as u8);
    byte((n / 256 % 256) as u8);
    byte((n / 65536 % 256) as u8);
    byte((n / 16777216) as u8);
}

// A key as on the wire: the name's length, 32 bytes, the shard's number.
pub fn key(k: ShardKey) {
    let x = k.collection;
    let n = name_size(x);
    io::write_all(1, b" ");
    io::print_hex(1, n as u64, 2);
    name_bytes(x, n);
    filled(n);
    low_first(k.shard);
}

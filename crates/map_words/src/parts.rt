// The parts of a text, each written from a place on, with the place behind it. Internal: a caller shows that there is room.
ghost use Rattle.std.specs.Prelude.{◌≡◌, ◌+◌, ◌≤◌, length};
ghost use Rattle.spec_words.specs.Decimal.{decimal};
ghost use Rattle.spec_words.specs.Words.{key_words};
ghost use Rattle.map_tables.specs.Names.{view_name, view_key};
ghost use Rattle.map_words.specs.Written.{Puts, Spells};

use crate::Digits;
use map_tables::names::name_size;
use map_tables::{Name, ShardKey};
use wire_put::put::put_bytes;

// 0 to 9, in ASCII.
fn digit(d: u64) -> u8
    requires { d ≤ 9 }
    ensures { result ≡ 48 + d }
{
    (48 + d) as u8
}

// In decimal, from the last digit on.
fn digits(n: u64) -> Digits
    ensures { Spells n result }
{
    let mut bytes = [0u8; 20];
    let mut left = n;
    let mut from: usize = 20;
    // Stays a while: it ends where no digit is left, which no count says beforehand.
    while 10 <= left {
        from -= 1;
        bytes[from] = digit(left % 10);
        left = left / 10;
    }
    from -= 1;
    bytes[from] = digit(left);
    Digits {
        bytes: bytes,
        from: from,
    }
}

// Words as they are.
pub fn put_words(out: &mut [u8], at: usize, words: &[u8]) -> usize
    requires { at + length words.now ≤ length out.old }
    ensures { Puts out.old out.new at words.now result }
{
    put_bytes(out, at, words);
    at + words.len()
}

// A number in decimal.
pub fn put_number(out: &mut [u8], at: usize, n: u64) -> usize
    requires { at + length (decimal n) ≤ length out.old }
    ensures { Puts out.old out.new at (decimal n) result }
{
    let d = digits(n);
    let bytes = d.bytes;
    let from = d.from;
    put_words(out, at, &bytes[from..])
}

// A name as it is.
pub fn put_name(out: &mut [u8], at: usize, name: Name) -> usize
    requires { at + length (view_name name) ≤ length out.old }
    ensures { Puts out.old out.new at (view_name name) result }
{
    let n = name_size(name);
    let bytes = name.bytes;
    put_words(out, at, &bytes[..n])
}

// A name, a slash, the shard's number.
pub fn put_key(out: &mut [u8], at: usize, key: ShardKey) -> usize
    requires { at + length (key_words (view_key key)) ≤ length out.old }
    ensures { Puts out.old out.new at (key_words (view_key key)) result }
{
    let name = key.collection;
    let slash = put_name(out, at, name);
    let number = put_words(out, slash, b"/");
    put_number(out, number, key.shard as u64)
}

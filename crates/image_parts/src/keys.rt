// Internal: names, addresses and keys in an image.
ghost use Rattle.std.specs.Prelude.{◌≡◌, ◌+◌, ◌≤◌, length};
ghost use Rattle.image_parts.specs.Shape.{Stored};
ghost use Rattle.image_parts.specs.Parts.{name_at, name_bytes, address_at, address_bytes, key_at, key_bytes};
ghost use Rattle.image_parts.specs.Parts.{no_name, no_key};

use crate::bytes::bytes_at;
use map_tables::{Address, Name, ShardKey};
use wire_write::put::put_bytes;

// Internal: 40 bytes.
pub fn name_at(s: &[u8], at: usize) -> Name
    requires { at + 40 ≤ length s.now }
    ensures { result ≡ name_at s.now at }
{
    let bytes = bytes_at(s, at + 8);
    let len = num::get8(s, at) as usize;
    Name {
        bytes: bytes,
        len: len,
    }
}

pub fn put_name(out: &mut [u8], at: usize, n: Name)
    requires { at + 40 ≤ length out.old }
    ensures { Stored out.old out.new at (name_bytes n) 40 }
{
    num::put8(out, at, n.len as u64);
    let bytes = n.bytes;
    put_bytes(out, at + 8, &bytes);
}

// Internal: 72 bytes.
pub fn address_at(s: &[u8], at: usize) -> Address
    requires { at + 72 ≤ length s.now }
    ensures { result ≡ address_at s.now at }
{
    let bytes = bytes_at(s, at + 8);
    let len = num::get8(s, at) as usize;
    Address {
        bytes: bytes,
        len: len,
    }
}

pub fn put_address(out: &mut [u8], at: usize, a: Address)
    requires { at + 72 ≤ length out.old }
    ensures { Stored out.old out.new at (address_bytes a) 72 }
{
    num::put8(out, at, a.len as u64);
    let bytes = a.bytes;
    put_bytes(out, at + 8, &bytes);
}

// Internal: 44 bytes.
pub fn key_at(s: &[u8], at: usize) -> ShardKey
    requires { at + 44 ≤ length s.now }
    ensures { result ≡ key_at s.now at }
{
    let name = name_at(s, at);
    let shard = num::get4(s, at + 40);
    ShardKey {
        collection: name,
        shard: shard,
    }
}

pub fn put_key(out: &mut [u8], at: usize, k: ShardKey)
    requires { at + 44 ≤ length out.old }
    ensures { Stored out.old out.new at (key_bytes k) 44 }
{
    put_name(out, at, k.collection);
    num::put4(out, at + 40, k.shard);
}

pub fn no_name() -> Name
    ensures { result ≡ no_name }
{
    let bytes = [0u8; 32];
    Name {
        bytes: bytes,
        len: 0,
    }
}

pub fn no_key() -> ShardKey
    ensures { result ≡ no_key }
{
    let name = no_name();
    ShardKey {
        collection: name,
        shard: 0,
    }
}

// Names, addresses and the keys of shards, copied out of the message in which they stand (paper 01, 'Bytes on the wire'). Bytes past a
// length are zero. Internal: what the readers of a message share.
#![tactic(auto)]

ghost use Rattle.std.specs.Prelude.{◌≡◌, ◌+◌, ◌≤◌, length, take};
ghost use Rattle.map_tables.specs.Names.{view_name, view_address, view_key};
ghost use Rattle.map_names.specs.Texts.{Text, bytes_at, KeyThere, key_in};

use map_tables::{Address, Name, ShardKey};
use wire_read::{KeyPart, Part};

// The bytes of a text, at the start of an array.
fn loaded<const N: usize>(s: &[u8], p: Part) -> [u8; N]
    requires { Text N s.now p }
    ensures { take p.len result ≡ bytes_at s.now p }
{
    let mut out = [0u8; N];
    out[..p.len].copy_from_slice(&s[p.at..p.at + p.len]);
    out
}

pub fn load_name(s: &[u8], p: Part) -> Name
    requires { Text 32 s.now p }
    ensures { (view_name result ≡ bytes_at s.now p) × (result.len ≤ 32) }
{
    let bytes = loaded(s, p);
    Name {
        bytes: bytes,
        len: p.len,
    }
}

pub fn load_address(s: &[u8], p: Part) -> Address
    requires { Text 64 s.now p }
    ensures { (view_address result ≡ bytes_at s.now p) × (result.len ≤ 64) }
{
    let bytes = loaded(s, p);
    Address {
        bytes: bytes,
        len: p.len,
    }
}

// The key that a message names.
pub fn key_of(s: &[u8], p: KeyPart) -> ShardKey
    requires { KeyThere s.now p }
    ensures { view_key result ≡ key_in s.now p }
{
    let name = load_name(s, p.name);
    ShardKey {
        collection: name,
        shard: p.shard,
    }
}

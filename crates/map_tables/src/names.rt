// Internal: names and shard keys, compared as the source compares strings and keys.
ghost use Rattle.std.specs.Prelude.{◌≡◌, ◌≤◌, length};
ghost use Rattle.spec.specs.Keys.{same_name, name_below, same_key, key_below};
ghost use Rattle.map_tables.specs.Names.{view_name, view_key};

use crate::{Name, ShardKey};

// Internal: how many bytes a name has.
pub fn name_size(n: Name) -> usize
    ensures { (result ≡ length (view_name n)) × (result ≤ 32) }
{
    if n.len < 32 { n.len } else { 32 }
}

// The bytes in use.
fn bytes_of(n: &Name) -> &[u8]
    ensures { result.now ≡ view_name n.now }
{
    &n.bytes[..name_size(*n)]
}

// Internal: whether two names agree.
pub fn same_name(a: Name, b: Name) -> bool
    ensures { result ≡ same_name (view_name a) (view_name b) }
{
    bytes_of(&a) == bytes_of(&b)
}

// Internal: byte by byte; of two names that agree the shorter stands first.
pub fn name_below(a: Name, b: Name) -> bool
    ensures { result ≡ name_below (view_name a) (view_name b) }
{
    bytes_of(&a) < bytes_of(&b)
}

// Internal: whether two keys agree. Their numbers come first: those of one collection have the same name.
pub fn same_key(a: ShardKey, b: ShardKey) -> bool
    ensures { result ≡ same_key (view_key a) (view_key b) }
{
    a.shard == b.shard && same_name(a.collection, b.collection)
}

// Internal: by collection, then by number.
pub fn key_below(a: ShardKey, b: ShardKey) -> bool
    ensures { result ≡ key_below (view_key a) (view_key b) }
{
    name_below(a.collection, b.collection)
        || (same_name(a.collection, b.collection) && a.shard < b.shard)
}

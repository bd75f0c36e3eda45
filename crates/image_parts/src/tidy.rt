// Internal: values in the canonical form in which an image has them (specs/Canon.antt): the part in use as it is, its length as the count,
// zeros past it. A count above its array is that of the whole array, as it is read.
ghost use Rattle.std.specs.Prelude.{◌≡◌, take};
ghost use Rattle.map_tables.specs.Names.{view_name, view_address, view_key};
ghost use Rattle.image_parts.specs.Codes.{id_of};
ghost use Rattle.image_parts.specs.Parts.{no_replica};
ghost use Rattle.image_parts.specs.Canon.{padded, image_name, image_address, image_key};

use crate::bytes::in_use;
use map_tables::{Address, Name, ShardKey};
use spec::{DataNodeId, Replica};

// The first `count` items, or all where there are fewer; past them what says nothing.
fn padded<T: Copy, const N: usize>(all: [T; N], count: usize, none: T) -> [T; N]
    ensures { result ≡ padded N none (take count all) }
{
    let n = in_use(N, count);
    let mut out = [none; N];
    out[..n].copy_from_slice(&all[..n]);
    out
}

pub fn tidy_name(n: Name) -> Name
    ensures { result ≡ image_name (view_name n) }
{
    let bytes = padded(n.bytes, n.len, 0);
    let len = in_use(32, n.len);
    Name {
        bytes: bytes,
        len: len,
    }
}

pub fn tidy_address(a: Address) -> Address
    ensures { result ≡ image_address (view_address a) }
{
    let bytes = padded(a.bytes, a.len, 0);
    let len = in_use(64, a.len);
    Address {
        bytes: bytes,
        len: len,
    }
}

pub fn tidy_key(k: ShardKey) -> ShardKey
    ensures { result ≡ image_key (view_key k) }
{
    let name = tidy_name(k.collection);
    ShardKey {
        collection: name,
        shard: k.shard,
    }
}

pub fn tidy_replicas(rs: [Replica; 8], count: usize) -> [Replica; 8]
    ensures { result ≡ padded 8 no_replica (take count rs) }
{
    let none = Replica {
        node: DataNodeId(0),
        incarnation: 0,
    };
    padded(rs, count, none)
}

pub fn tidy_ids(ids: [DataNodeId; 8], count: usize) -> [DataNodeId; 8]
    ensures { result ≡ padded 8 (id_of 0) (take count ids) }
{
    padded(ids, count, DataNodeId(0))
}

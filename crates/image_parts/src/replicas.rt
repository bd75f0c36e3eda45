// Internal: the copies of a shard, and node ids, in an image.
ghost use Rattle.std.specs.Prelude.{◌≡◌, ◌+◌, ◌≤◌, length};
ghost use Rattle.image_parts.specs.Shape.{Stored};
ghost use Rattle.image_parts.specs.Parts.{replica_at, replica_bytes, replicas_at, replicas_bytes, ids_at, ids_bytes};

use spec::{DataNodeId, Replica};

fn replica_at(s: &[u8], at: usize) -> Replica
    requires { at + 16 ≤ length s.now }
    ensures { result ≡ replica_at s.now at }
{
    let node = DataNodeId(num::get8(s, at));
    Replica {
        node: node,
        incarnation: num::get8(s, at + 8),
    }
}

fn put_replica(out: &mut [u8], at: usize, r: Replica)
    requires { at + 16 ≤ length out.old }
    ensures { Stored out.old out.new at (replica_bytes r) 16 }
{
    num::put8(out, at, r.node.0);
    num::put8(out, at + 8, r.incarnation);
}

// Internal: 128 bytes.
pub fn replicas_at(s: &[u8], at: usize) -> [Replica; 8]
    requires { at + 128 ≤ length s.now }
    ensures { result ≡ replicas_at s.now at }
{
    let none = Replica {
        node: DataNodeId(0),
        incarnation: 0,
    };
    let mut out = [none; 8];
    for i in 0..8 {
        out[i] = replica_at(s, at + 16 * i);
    }
    out
}

pub fn put_replicas(out: &mut [u8], at: usize, rs: [Replica; 8])
    requires { at + 128 ≤ length out.old }
    ensures { Stored out.old out.new at (replicas_bytes rs) 128 }
{
    for i in 0..8 {
        put_replica(out, at + 16 * i, rs[i]);
    }
}

// Internal: 64 bytes.
pub fn ids_at(s: &[u8], at: usize) -> [DataNodeId; 8]
    requires { at + 64 ≤ length s.now }
    ensures { result ≡ ids_at s.now at }
{
    let none = DataNodeId(0);
    let mut out = [none; 8];
    for i in 0..8 {
        let id = DataNodeId(num::get8(s, at + 8 * i));
        out[i] = id;
    }
    out
}

pub fn put_ids(out: &mut [u8], at: usize, ids: [DataNodeId; 8])
    requires { at + 64 ≤ length out.old }
    ensures { Stored out.old out.new at (ids_bytes ids) 64 }
{
    for i in 0..8 {
        let id = ids[i];
        num::put8(out, at + 8 * i, id.0);
    }
}

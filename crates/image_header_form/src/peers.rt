// The peer rows of a held shard in place: 32 rows of 32 bytes, of which the first are in use.
ghost use Rattle.std.specs.Prelude.{◌≡◌, map, ◌+◌, ◌≤◌, length, take};
ghost use Rattle.spec.specs.Lists.{every, collect};
ghost use Rattle.spec.specs.Node.Client.{to_shrink, wait_row, node_of, has_acked};
ghost use Rattle.image_parts.specs.Shape.{Stored};
ghost use Rattle.image_parts.specs.Canon.{padded};
ghost use Rattle.image_header_row.specs.Rows.{peers_at, peers_bytes, no_peer};

use image_header_row::peers::{peer_at, put_peer};
use node_shard::Nodes;
use node_waits::{is_late, row_waited, shrinks};
use spec::{DataNodeId, Offset, Peer};

fn no_peer() -> Peer
    ensures { result ≡ no_peer }
{
    Peer {
        node: DataNodeId(0),
        acked: Offset(0),
        aligned: false,
        behind: false,
        since: 0,
        proposing: false,
        member: false,
    }
}

// The rows in use after a wait, in the canonical form, zeros past them.
pub fn peers_waited(out: &mut [u8], at: usize, count: usize, last: u64, clock: u64, timeout: u64)
    requires { (at + 1024 ≤ length out.old) × (count ≤ 32) }
    ensures { Stored out.old out.new at
        (peers_bytes (padded 32 no_peer (map (wait_row last clock timeout) (take count (peers_at out.old at))))) 1024 }
{
    for i in 0..count {
        let p = peer_at(out, at + 32 * i);
        let q = row_waited(p, last, clock, timeout);
        put_peer(out, at + 32 * i, q);
    }
    for i in count..32 {
        let none = no_peer();
        put_peer(out, at + 32 * i, none);
    }
}

// The rows in use in the canonical form, zeros past them: a wait for offset 0 changes no row, since every peer has acked that.
pub fn peers_tidied(out: &mut [u8], at: usize, count: usize)
    requires { (at + 1024 ≤ length out.old) × (count ≤ 32) }
    ensures { Stored out.old out.new at
        (peers_bytes (padded 32 no_peer (take count (peers_at out.old at)))) 1024 }
{
    peers_waited(out, at, count, 0, 0, 0);
}

// The peers to propose a Shrink for.
pub fn shrinks_of(s: &[u8], at: usize, count: usize, last: u64, clock: u64, timeout: u64) -> Nodes
    requires { (at + 1024 ≤ length s.now) × (count ≤ 32) }
    ensures { take result.count result.items ≡ collect (to_shrink last clock timeout) node_of (take count (peers_at s.now at)) }
{
    let mut items = [DataNodeId(0); 32];
    let mut n: usize = 0;
    for i in 0..count {
        let p = peer_at(s, at + 32 * i);
        if shrinks(p, last, clock, timeout) {
            let node = p.node;
            items[n] = node;
            n += 1;
        }
    }
    Nodes {
        items: items,
        count: n,
    }
}

// Whether every member of the ack set has acked the offset.
pub fn all_acked(s: &[u8], at: usize, count: usize, offset: u64) -> bool
    requires { (at + 1024 ≤ length s.now) × (count ≤ 32) }
    ensures { result ≡ every (has_acked offset) (take count (peers_at s.now at)) }
{
    for i in 0..count {
        let p = peer_at(s, at + 32 * i);
        if is_late(p, offset) {
            return false;
        }
    }
    true
}

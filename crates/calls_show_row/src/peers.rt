// Internal: the peers of a held shard's row, changed where they stand: 32 rows of 32 bytes, by rising node.
ghost use Rattle.std.specs.Prelude.{◌≡◌, map, ◌+◌, ◌≤◌, ◌<◌, length, take};
ghost use Rattle.spec.specs.Lists.{lead};
ghost use Rattle.spec.specs.Node.Shown.{retained, with_rows};
ghost use Rattle.node_shard.specs.View.{below, insert_at};
ghost use Rattle.image_header_row.specs.Rows.{peers_at};
ghost use Rattle.calls_show_row.specs.Peers.{peers_in, AtMost32, PeersBecome, PeersGrow};

use image_header_row::peers::peer_at;
use image_header_set::peers::place_of;
use image_header_set::set::set_peer;
use image_layout::header::PEERS;
use node_shard::rows::{both, in_nodes, is_holder};
use node_show_shard::row_new;
use spec::{DataNodeId, Peer, Replica};

// Where a row of `node` belongs.
fn place_for(s: &[u8], at: usize, count: usize, node: u64) -> usize
    requires { (at + 1024 ≤ length s.now) × (count ≤ 32) }
    ensures { result ≡ lead (below node) (take count (peers_at s.now at)) }
{
    for i in 0..count {
        if node <= num::get8(s, at + 32 * i) {
            return i;
        }
    }
    count
}

// One row put in, those behind it moved on.
fn put_in(out: &mut [u8], row: usize, count: usize, to: usize, x: Peer)
    requires { (row + 1280 ≤ length out.old) × (count < 32) × (to ≤ count) }
    ensures { PeersBecome out.old out.new row (count + 1) (insert_at (take count (peers_in out.old row)) to x) }
{
    let mut carry = x;
    for i in to..count + 1 {
        let t = peer_at(out, row + PEERS + 32 * i);
        set_peer(out, row, i, carry);
        carry = t;
    }
}

// A peer that the shard no longer lists leaves the ack set.
fn row_retained(p: Peer, replicas: [Replica; 8], holders: usize) -> Peer
    requires { holders ≤ 8 }
    ensures { result ≡ retained (take holders replicas) p }
{
    let still = is_holder(replicas, holders, p.node.0);
    let mut q = p;
    q.member = both(p.member, still);
    q
}

// Every row, its membership kept only where the shard lists the peer.
pub fn retain(out: &mut [u8], row: usize, count: usize, replicas: [Replica; 8], holders: usize)
    requires { (row + 1280 ≤ length out.old) × (count ≤ 32) × (holders ≤ 8) }
    ensures { PeersBecome out.old out.new row count
        (map (retained (take holders replicas)) (take count (peers_in out.old row))) }
{
    for i in 0..count {
        let p = peer_at(out, row + PEERS + 32 * i);
        let q = row_retained(p, replicas, holders);
        set_peer(out, row, i, q);
    }
}

// A row for each holder but `me` that has none yet: how many there are then, or none where they do not fit.
pub fn grow(
    out: &mut [u8],
    row: usize,
    count: usize,
    me: u64,
    replicas: [Replica; 8],
    holders: usize,
    insync: [DataNodeId; 8],
    synced: usize,
) -> Option<usize>
    requires { (row + 1280 ≤ length out.old) × (count ≤ 32) × (holders ≤ 8) × (synced ≤ 8) }
    ensures { AtMost32 result (PeersGrow out.old out.new row
        (with_rows me (take synced insync) (take holders replicas) (take count (peers_in out.old row)))) }
{
    let mut n = count;
    for i in 0..holders {
        let r = replicas[i];
        let node = r.node;
        if node.0 == me {
            continue;
        }
        if place_of(out, row + PEERS, n, node.0) < n {
            continue;
        }
        if 32 <= n {
            return None;
        }
        let x = row_new(node, in_nodes(insync, synced, node.0));
        let to = place_for(out, row + PEERS, n, node.0);
        put_in(out, row, n, to, x);
        n += 1;
    }
    Some(n)
}

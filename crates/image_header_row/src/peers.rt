// Internal: the peer rows of a held shard: 32 rows of 32 bytes.
ghost use Rattle.std.specs.Prelude.{◌≡◌, ◌+◌, ◌≤◌, length};
ghost use Rattle.image_parts.specs.Shape.{Stored};
ghost use Rattle.image_header_row.specs.Rows.{weigh, peer_flags, peer_at, peer_bytes};

use spec::{DataNodeId, Offset, Peer};

fn bit(flag: bool, w: u32) -> u32
    ensures { (result ≡ weigh flag w) × (result ≤ w) }
{
    if flag { w } else { 0 }
}

fn peer_flags(p: Peer) -> u32
    ensures { result ≡ peer_flags p }
{
    bit(p.aligned, 1) + bit(p.behind, 2) + bit(p.proposing, 4) + bit(p.member, 8)
}

pub fn peer_at(s: &[u8], at: usize) -> Peer
    requires { at + 32 ≤ length s.now }
    ensures { result ≡ peer_at s.now at }
{
    let node = DataNodeId(num::get8(s, at));
    let acked = Offset(num::get8(s, at + 8));
    let since = num::get8(s, at + 16);
    let flags = num::get4(s, at + 24);
    Peer {
        node: node,
        acked: acked,
        aligned: flags % 2 == 1,
        behind: flags / 2 % 2 == 1,
        since: since,
        proposing: flags / 4 % 2 == 1,
        member: flags / 8 % 2 == 1,
    }
}

pub fn put_peer(out: &mut [u8], at: usize, p: Peer)
    requires { at + 32 ≤ length out.old }
    ensures { Stored out.old out.new at (peer_bytes p) 32 }
{
    let flags = peer_flags(p);
    num::put8(out, at, p.node.0);
    num::put8(out, at + 8, p.acked.0);
    num::put8(out, at + 16, p.since);
    num::put4(out, at + 24, flags);
    num::put4(out, at + 28, 0);
}

// Whether a shard takes a Write, from the few numbers of its row that decide it (paper 01, 'Who is turned down', Write). Internal.
ghost use Rattle.std.specs.Prelude.{◌≡◌, cond, ◌+◌, ◌≤◌, ◌<◌, length, take};
ghost use Rattle.spec.specs.Lists.{filter};
ghost use Rattle.spec.specs.Layout.Format.{number_at};
ghost use Rattle.spec.specs.Node.Client.{is_member};
ghost use Rattle.spec.specs.Node.Lease.{before};
ghost use Rattle.node_admit.specs.View.{view_expiry};
ghost use Rattle.node_admit.specs.Admits.{AdmitsWrite};
ghost use Rattle.image_header_row.specs.Rows.{peers_at, held_row_at};
ghost use Rattle.image_header.specs.Image.{node_at};

use image_header::expiry_of;
use image_header_row::held::role_at;
use image_header_row::peers::peer_at;
use image_layout::header::{COUNT, EPOCH, LAST, LEASE, LEASE_TIME, OWN, PEER, PEERS, ROLE};
use image_parts::codes::flag_of;
use node_admit::Admit;
use node_admit::lease::leased;
use node_shard::rows::leads;

// How many of the first peers are in the ack set.
fn members(s: &[u8], at: usize, count: usize) -> u64
    requires { (at + 1024 ≤ length s.now) × (count ≤ 32) }
    ensures { (result ≡ length (filter is_member (take count (peers_at s.now at)))) × (result ≤ 32) }
{
    let mut n: u64 = 0;
    for i in 0..count {
        let p = peer_at(s, at + PEER * i);
        if p.member {
            n += 1;
        }
    }
    n
}

// And this node, if it is in its own ack set.
fn plus_own(n: u64, own: bool) -> u64
    requires { n ≤ 32 }
    ensures { result ≡ n + cond own 1 0 }
{
    if own { n + 1 } else { n }
}

// Whether the lease holds.
fn is_leased(s: &[u8], clock: u64) -> bool
    requires { 10288 ≤ length s.now }
    ensures { result ≡ before (view_expiry (node_at s.now).expiry) clock }
{
    let e = expiry_of(num::get4(s, LEASE), num::get8(s, LEASE_TIME));
    leased(e, clock)
}

// The shard whose row begins at `row`: 18, 19, 20, 23 a full log.
pub fn admit_write(s: &[u8], row: usize, epoch: u64, clock: u64, least: u64) -> Admit
    requires { (10288 ≤ length s.now) × (row + 1280 ≤ length s.now) × (number_at 8 s.now (row + 88) ≤ 32) }
    ensures { AdmitsWrite (held_row_at s.now row).held epoch (before (view_expiry (node_at s.now).expiry) clock) least result }
{
    let role = role_at(s, row + ROLE);
    if !leads(role, epoch) {
        return Admit::NotPrimary(num::get8(s, row + EPOCH));
    }
    if !is_leased(s, clock) {
        return Admit::NoLease;
    }
    let count = num::get8(s, row + COUNT) as usize;
    let others = members(s, row + PEERS, count);
    let own = flag_of(num::get4(s, row + OWN));
    if plus_own(others, own) < least {
        return Admit::TooFew;
    }
    if 1024 <= num::get8(s, row + LAST) {
        return Admit::NoRoom;
    }
    Admit::Yes
}

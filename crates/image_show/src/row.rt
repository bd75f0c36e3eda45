// Internal: a row of the map that changes nothing of the shard that is held: the same replicas, the role as it is, no worker to start.
ghost use Rattle.std.specs.Prelude.{◌≡◌, true, false, [], ◌+◌, ◌≤◌, length, take};
ghost use Rattle.spec.specs.Lists.{any};
ghost use Rattle.spec.specs.Layout.Format.{number_at};
ghost use Rattle.spec.specs.Node.Shown.{with_rows};
ghost use Rattle.spec.specs.declared.Role.TheVariants.{Backup};
ghost use Rattle.map_tables.specs.View.{view_holders};
ghost use Rattle.map_tables.specs.Counted.{Sized};
ghost use Rattle.image_header_row.specs.Rows.{peers_at, held_row_at};
ghost use Rattle.image_show.specs.Quiet.{lost, HoldsAs, LedOn, LeftOn, QuietRow};

use image_header_row::held::role_at;
use image_header_row::peers::peer_at;
use image_header_set::peers::place_of;
use image_layout::header::{COUNT, EPOCH, HOLDERS, OWN, PEERS, REPLICAS, ROLE};
use image_parts::codes::flag_of;
use image_parts::replicas::replicas_at;
use map_tables::{Holders, ShardRow};
use node_shard::rows::is_holder;
use node_show_row::rows::leader_of;
use node_show_shard::{is_leader, rising_to};
use spec::{Peer, Replica, Role};

// A peer that is in the ack set though the shard does not list it.
fn is_lost(p: Peer, replicas: [Replica; 8], holders: usize) -> bool
    requires { holders ≤ 8 }
    ensures { result ≡ lost (take holders replicas) p }
{
    let listed = is_holder(replicas, holders, p.node.0);
    p.member && !listed
}

// One of the peers from `at` on.
fn any_lost(s: &[u8], at: usize, count: usize, replicas: [Replica; 8], holders: usize) -> bool
    requires { (at + 1024 ≤ length s.now) × (count ≤ 32) × (holders ≤ 8) }
    ensures { result ≡ any (lost (take holders replicas)) (take count (peers_at s.now at)) }
{
    for i in 0..count {
        let p = peer_at(s, at + 32 * i);
        if is_lost(p, replicas, holders) {
            return true;
        }
    }
    false
}

// A holder but `me` that has no row among the peers from `at` on.
fn any_missing(
    s: &[u8],
    at: usize,
    count: usize,
    replicas: [Replica; 8],
    holders: usize,
    me: u64,
) -> bool
    requires { (at + 1024 ≤ length s.now) × (count ≤ 32) × (holders ≤ 8) }
    ensures { result ≡ false → with_rows me [] (take holders replicas) (take count (peers_at s.now at)) ≡ take count (peers_at s.now at) }
{
    for i in 0..holders {
        let r = replicas[i];
        let node = r.node;
        if node.0 == me {
            continue;
        }
        if count <= place_of(s, at, count, node.0) {
            return true;
        }
    }
    false
}

// The first `count` of both.
fn same_replicas(a: [Replica; 8], b: [Replica; 8], count: usize) -> bool
    requires { count ≤ 8 }
    ensures { result ≡ true → take count a ≡ take count b }
{
    for i in 0..count {
        let x = a[i];
        let y = b[i];
        if x.node.0 != y.node.0 || x.incarnation != y.incarnation {
            return false;
        }
    }
    true
}

// The shard has the replicas that the map lists.
fn holds_as(s: &[u8], at: usize, list: Holders) -> bool
    requires { (at + 1280 ≤ length s.now) × (list.count ≤ 8) }
    ensures { result ≡ true → HoldsAs (held_row_at s.now at).held list }
{
    if num::get8(s, at + HOLDERS) as usize != list.count {
        return false;
    }
    let copies = replicas_at(s, at + REPLICAS);
    let items = list.items;
    same_replicas(copies, items, list.count)
}

// The map names this node primary: no new record, and none of the peers changes.
fn led_on(s: &[u8], at: usize, me: u64, row: ShardRow) -> bool
    requires { (at + 1280 ≤ length s.now) × (number_at 8 s.now (at + 88) ≤ 32) × Sized row }
    ensures { result ≡ true → LedOn (held_row_at s.now at).held me row }
{
    let list = row.replicas;
    let items = list.items;
    let holders = list.count;
    let to = row.epoch;
    let role = role_at(s, at + ROLE);
    if rising_to(role, num::get8(s, at + EPOCH), to.0) {
        return false;
    }
    let n = num::get8(s, at + COUNT) as usize;
    if any_lost(s, at + PEERS, n, items, holders) {
        return false;
    }
    !any_missing(s, at + PEERS, n, items, holders, me)
}

fn is_backup(role: Role) -> bool
    ensures { result ≡ true → role ≡ Backup }
{
    match role {
        Role::Backup => true,
        Role::Primary { epoch: _, end: _ } => false,
    }
}

// The map does not: a backup that tracks nothing.
fn left_on(s: &[u8], at: usize) -> bool
    requires { at + 1280 ≤ length s.now }
    ensures { result ≡ true → LeftOn (held_row_at s.now at).held }
{
    let role = role_at(s, at + ROLE);
    if !is_backup(role) {
        return false;
    }
    if flag_of(num::get4(s, at + OWN)) {
        return false;
    }
    num::get8(s, at + COUNT) == 0
}

pub fn row_quiet(s: &[u8], at: usize, me: u64, row: ShardRow) -> bool
    requires { (at + 1280 ≤ length s.now) × (number_at 8 s.now (at + 88) ≤ 32) × Sized row }
    ensures { result ≡ true → QuietRow (held_row_at s.now at).held me row }
{
    let list = row.replicas;
    if !holds_as(s, at, list) {
        return false;
    }
    let primary = row.primary;
    let leader = leader_of(primary);
    if is_leader(leader, me) {
        return led_on(s, at, me, row);
    }
    left_on(s, at)
}

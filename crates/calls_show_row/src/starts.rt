// Internal: the workers to start for one shard, as rows of 54 bytes.
ghost use Rattle.std.specs.Prelude.{◌≡◌, ◌+◌, ◌*◌, ◌≤◌, length};
ghost use Rattle.spec.specs.Layout.Format.{encode};
ghost use Rattle.spec.specs.Layout.Parts.{key_f, key_value, metric_code};
ghost use Rattle.map_tables.specs.Names.{view_key};
ghost use Rattle.node_shard.specs.Shows.{worker_at};
ghost use Rattle.image_parts.specs.Shape.{Stored};
ghost use Rattle.image_header_row.specs.Rows.{held_row_at, peers_at};
ghost use Rattle.calls_header.specs.Shows.{worker_bytes};
ghost use Rattle.calls_show_row.specs.Row.{Ready, Few, Holds, Puts};
ghost use Rattle.calls_show_row.specs.Leave.{starts_between, PutsNew};

use crate::leave::leave;
use crate::news::copy_row;
use image_header_row::held::role_at;
use image_header_set::peers::place_of;
use image_layout::header::{COUNT, PEERS, ROLE, ROW};
use image_parts::bytes::in_use;
use image_parts::keys::key_at;
use map_tables::{ShardKey, ShardRow};
use node_show_row::rows::epoch_of;
use spec::Metric;
use wire_write::put::{put_byte, put_key};

// A key as on the wire.
fn put_named(out: &mut [u8], at: usize, k: ShardKey)
    requires { at + 37 ≤ length out.old }
    ensures { Stored out.old out.new at (encode key_f (key_value (view_key k))) 37 }
{
    let name = k.collection;
    let bytes = name.bytes;
    let len = in_use(32, name.len);
    put_key(out, at, &bytes[0..len], k.shard);
}

// A metric's code, as on the wire.
fn metric_byte(m: Metric) -> u8
    ensures { result ≡ metric_code m }
{
    match m {
        Metric::Euclidean => 0,
        Metric::Angular => 1,
    }
}

// One worker.
fn put_worker(out: &mut [u8], at: usize, key: ShardKey, peer: u64, epoch: u64, metric: Metric)
    requires { at + 54 ≤ length out.old }
    ensures { Stored out.old out.new at (worker_bytes (worker_at (view_key key) epoch metric (record { 0 = peer }))) 54 }
{
    let code = metric_byte(metric);
    put_named(out, at, key);
    num::put8(out, at + 37, peer);
    num::put8(out, at + 45, epoch);
    put_byte(out, at + 53, code);
}

// The workers of the peers of the row `t` that are not among the first `was` from `at` on; tells the next place.
fn put_new(
    starts: &mut [u8],
    to: usize,
    s: &[u8],
    at: usize,
    was: usize,
    t: &[u8],
    metric: Metric,
) -> usize
    requires { (at + 1024 ≤ length s.now) × (was ≤ 32) × (1280 ≤ length t.now) × ((held_row_at t.now 0).held.count ≤ 32) × (to ≤ 13824)
        × (to + 54 * length (starts_between was (peers_at s.now at) (held_row_at t.now 0) metric) ≤ length starts.old) }
    ensures { PutsNew starts.old starts.new to (starts_between was (peers_at s.now at) (held_row_at t.now 0) metric) result }
{
    let key = key_at(t, 0);
    let role = role_at(t, ROLE);
    let epoch = epoch_of(role);
    let count = num::get8(t, COUNT) as usize;
    let mut next = to;
    for i in 0..count {
        let peer = num::get8(t, PEERS + 32 * i);
        if was <= place_of(s, at, was, peer) {
            put_worker(starts, next, key, peer, epoch.0, metric);
            next += 54;
        }
    }
    next
}

// The workers of the shard whose row, as it was before the map, stands at `at`; tells the next place.
pub fn put_workers(
    starts: &mut [u8],
    to: usize,
    s: &[u8],
    at: usize,
    me: u64,
    row: ShardRow,
    metric: Metric,
) -> usize
    requires { Ready s.now at row × Few (held_row_at s.now at) me row × Holds starts.old to (held_row_at s.now at) me row metric }
    ensures { Puts starts.old starts.new to (held_row_at s.now at) me row metric result }
{
    let mut after = [0u8; ROW];
    copy_row(&mut after, s, at);
    let was = leave(&mut after, 0, me, row).unwrap();
    put_new(starts, to, s, at + PEERS, was, &after, metric)
}

// How many replicas a node has.
ghost use Rattle.std.specs.Prelude.{◌≡◌, ◌+◌, ◌≤◌, length, take};
ghost use Rattle.spec.specs.Layout.Format.{number_at};
ghost use Rattle.spec.specs.Map.Place.{on_node, replicas_of};
ghost use Rattle.map_tables.specs.Counted.{ShardsCounted};
ghost use Rattle.map_tables.specs.View.{view_shards};
ghost use Rattle.image_parts.specs.Parts.{replicas_at};
ghost use Rattle.image_map.specs.Image.{shards_at};

use image_map_check::layout::{SHARD, SHARDS};

// Where the row of a shard has the number of its replicas, and where they begin.
pub const HELD: usize = 64;

pub const REPLICAS: usize = 80;

pub const REPLICA: usize = 16;

// Of the replicas from `at` on. A node that is listed twice counts twice.
pub fn replicas_on(s: &[u8], at: usize, count: usize, node: u64) -> u64
    requires { (at + 128 ≤ length s.now) × (count ≤ 8) }
    ensures { (result ≡ on_node node (take count (replicas_at s.now at))) × (result ≤ 8) }
{
    let mut n: u64 = 0;
    for i in 0..count {
        if num::get8(s, at + REPLICA * i) != node {
            continue;
        }
        n += 1;
    }
    n
}

// Of every shard.
pub fn replicas_of(s: &[u8], shards: usize, node: u64) -> u64
    requires { (26536 ≤ length s.now) × (number_at 8 s.now 24 ≡ shards) × ShardsCounted (shards_at s.now) }
    ensures { (result ≡ replicas_of node (view_shards (shards_at s.now))) × (result ≤ 512) }
{
    let mut n: u64 = 0;
    for i in 0..shards {
        let at = SHARDS + SHARD * i;
        let held = num::get8(s, at + HELD) as usize;
        n += replicas_on(s, at + REPLICAS, held, node);
    }
    n
}

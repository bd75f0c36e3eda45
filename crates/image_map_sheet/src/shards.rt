// Internal: the replica records of all shards. Those that name one node are crate image_map_loads' `replicas_of`.
ghost use Rattle.std.specs.Prelude.{◌≡◌, ◌≤◌, length};
ghost use Rattle.spec.specs.Layout.Format.{number_at};
ghost use Rattle.spec_sheet.specs.Sheet.{records_in, unknown_in};
ghost use Rattle.map_tables.specs.Counted.{ShardsCounted};
ghost use Rattle.map_tables.specs.View.{view_nodes, view_shards};
ghost use Rattle.image_map.specs.Image.{nodes_at, shards_at};
ghost use Rattle.image_map_check.specs.Places.{NodesCount};

use crate::holders::unknown_on;
use image_map_check::layout::{SHARD, SHARDS};
use image_map_loads::replicas::{HELD, REPLICAS};

// Those whose node the table lacks.
pub fn unknown_in(s: &[u8], nodes: usize, shards: usize) -> u64
    requires { (NodesCount s.now nodes) × (number_at 8 s.now 24 ≡ shards) × ShardsCounted (shards_at s.now) }
    ensures { result ≡ unknown_in (view_nodes (nodes_at s.now)) (view_shards (shards_at s.now)) }
{
    let mut n: u64 = 0;
    for i in 0..shards {
        let at = SHARDS + SHARD * i;
        let held = num::get8(s, at + HELD) as usize;
        n += unknown_on(s, at + REPLICAS, held, nodes);
    }
    n
}

// All of them.
pub fn records_in(s: &[u8], shards: usize) -> u64
    requires { (26536 ≤ length s.now) × (number_at 8 s.now 24 ≡ shards) × ShardsCounted (shards_at s.now) }
    ensures { result ≡ records_in (view_shards (shards_at s.now)) }
{
    let mut n: u64 = 0;
    for i in 0..shards {
        n += num::get8(s, SHARDS + SHARD * i + HELD);
    }
    n
}

// The node that takes a replica of a shard next.
ghost use Rattle.std.specs.Prelude.{◌≡◌, ◌+◌, ◌≤◌, length, take};
ghost use Rattle.spec.specs.Map.Place.{lightest};
ghost use Rattle.map_tables.specs.View.{view_node};
ghost use Rattle.image_parts.specs.Parts.{replicas_at};
ghost use Rattle.image_map_row.specs.Rows.{node_at};
ghost use Rattle.map_place.specs.Read.{may_take, best_of};
ghost use Rattle.image_map_loads.specs.Loads.{Used, free_in};

use crate::live::is_alive;
use crate::replicas::{replicas_of, replicas_on};
use image_map_check::layout::{NODE, NODES, NODES_USED, SHARDS_USED};
use map_place::Load;
use map_place::choose::lighter_of;
use spec::DataNodeId;

// A live node that has none of the replicas from `at` on.
fn may_take(s: &[u8], row: usize, at: usize, held: usize) -> bool
    requires { (row + 96 ≤ length s.now) × (at + 128 ≤ length s.now) × (held ≤ 8) }
    ensures { result ≡ may_take (take held (replicas_at s.now at)) (view_node (node_at s.now row)) }
{
    if !is_alive(s, row) {
        return false;
    }
    replicas_on(s, at, held, num::get8(s, row)) == 0
}

// The lightest of them.
pub fn lightest_beside(s: &[u8], at: usize, held: usize) -> Option<Load>
    requires { (Used s.now) × (at + 128 ≤ length s.now) × (held ≤ 8) }
    ensures { best_of result ≡ lightest (free_in s.now (take held (replicas_at s.now at))) }
{
    let nodes = num::get8(s, NODES_USED) as usize;
    let shards = num::get8(s, SHARDS_USED) as usize;
    let mut best = None;
    for i in 0..nodes {
        let row = NODES + NODE * i;
        if !may_take(s, row, at, held) {
            continue;
        }
        let id = num::get8(s, row);
        let count = replicas_of(s, shards, id);
        let load = Load {
            node: DataNodeId(id),
            count: count,
        };
        let next = lighter_of(best, load);
        best = next;
    }
    best
}

// Internal: the replica records of one shard whose node the table lacks.
ghost use Rattle.std.specs.Prelude.{◌≡◌, ◌+◌, ◌≤◌, length, take};
ghost use Rattle.spec.specs.Lists.{any};
ghost use Rattle.spec.specs.Map.Create.{is_node};
ghost use Rattle.spec_sheet.specs.Sheet.{unknown_on};
ghost use Rattle.map_tables.specs.View.{view_nodes};
ghost use Rattle.image_parts.specs.Parts.{replicas_at};
ghost use Rattle.image_map.specs.Image.{nodes_at};
ghost use Rattle.image_map_check.specs.Places.{NodesCount};

use image_map_check::place::node_place;
use image_map_loads::replicas::REPLICA;

fn is_known(s: &[u8], nodes: usize, node: u64) -> bool
    requires { NodesCount s.now nodes }
    ensures { result ≡ any (is_node node) (view_nodes (nodes_at s.now)) }
{
    node_place(s, nodes, node) < nodes
}

// Of the records from `at` on: records, not ids.
pub fn unknown_on(s: &[u8], at: usize, held: usize, nodes: usize) -> u64
    requires { (at + 128 ≤ length s.now) × (held ≤ 8) × NodesCount s.now nodes }
    ensures { (result ≡ unknown_on (view_nodes (nodes_at s.now)) (take held (replicas_at s.now at))) × (result ≤ 8) }
{
    let mut n: u64 = 0;
    for i in 0..held {
        let node = num::get8(s, at + REPLICA * i);
        if is_known(s, nodes, node) {
            continue;
        }
        n += 1;
    }
    n
}

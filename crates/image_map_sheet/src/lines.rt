// Internal: a line for each row of the node table, dead nodes and those without a record among them.
ghost use Rattle.std.specs.Prelude.{◌≡◌, map, ◌≤◌};
ghost use Rattle.spec.specs.Layout.Format.{number_at};
ghost use Rattle.spec_sheet.specs.Sheet.{loaded_of};
ghost use Rattle.map_tables.specs.Counted.{ShardsCounted};
ghost use Rattle.map_tables.specs.View.{view_nodes, view_shards};
ghost use Rattle.image_map.specs.Image.{nodes_at, shards_at};
ghost use Rattle.image_map_check.specs.Places.{NodesCount};
ghost use Rattle.image_map_sheet.specs.Answers.{view_loads};

use crate::{Load, Loads};
use image_map_check::layout::{NODE, NODES};
use image_map_loads::replicas::replicas_of;
use spec::DataNodeId;

pub fn lines(s: &[u8], nodes: usize, shards: usize) -> Loads
    requires { (NodesCount s.now nodes) × (number_at 8 s.now 24 ≡ shards) × ShardsCounted (shards_at s.now) }
    ensures { (view_loads result ≡ map (loaded_of (view_shards (shards_at s.now))) (view_nodes (nodes_at s.now))) × (result.count ≤ 32) }
{
    let mut items = [Load {
        node: DataNodeId(0),
        count: 0,
    }; 32];
    for i in 0..nodes {
        let id = num::get8(s, NODES + NODE * i);
        let n = replicas_of(s, shards, id);
        items[i] = Load {
            node: DataNodeId(id),
            count: n,
        };
    }
    Loads {
        items: items,
        count: nodes,
    }
}

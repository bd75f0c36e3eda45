// This node's own incarnation, marked dead.
ghost use Rattle.std.specs.Prelude.{◌≡◌, take};
ghost use Rattle.spec.specs.Lists.{any};
ghost use Rattle.image_map.specs.Image.{nodes_at};
ghost use Rattle.image_map_check.specs.Places.{NodesCount};
ghost use Rattle.node_show_row.specs.Rows.{dead_at};

use image_map_check::layout::{NODE, NODES};
use image_map_row::nodes::node_at;
use node_show_row::rows::is_dead;

// Among the first `count` nodes of the map.
pub fn dead_in(map: &[u8], count: usize, id: u64, incarnation: u64) -> bool
    requires { NodesCount map.now count }
    ensures { result ≡ any (dead_at id incarnation) (take (nodes_at map.now).count (nodes_at map.now).items) }
{
    for i in 0..count {
        let x = node_at(map, NODES + NODE * i);
        if is_dead(x, id, incarnation) {
            return true;
        }
    }
    false
}

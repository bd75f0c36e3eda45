// What a map's bytes know of a node.
ghost use Rattle.std.specs.Prelude.{◌≡◌};
ghost use Rattle.spec.specs.Map.Create.{node_at, is_alive, incarnation_of};
ghost use Rattle.image_map_put.specs.Few.{Few};
ghost use Rattle.image_map_put.specs.Rows.{read_as};

use image_map_check::layout::{ALIVE, INCARNATION, NODE, NODES, NODES_USED};
use image_map_check::place::node_place;
use image_parts::codes::flag_of;
use spec::DataNodeId;

pub fn is_alive(map: &[u8], node: DataNodeId) -> bool
    requires { Few map.now }
    ensures { result ≡ is_alive (node_at (read_as map.now).nodes node.0) }
{
    let count = num::get8(map, NODES_USED) as usize;
    let place = node_place(map, count, node.0);
    if count <= place {
        return false;
    }
    flag_of(num::get4(map, NODES + NODE * place + ALIVE))
}

// 0 if the map does not know the node.
pub fn incarnation_of(map: &[u8], node: DataNodeId) -> u64
    requires { Few map.now }
    ensures { result ≡ incarnation_of (node_at (read_as map.now).nodes node.0) }
{
    let count = num::get8(map, NODES_USED) as usize;
    let place = node_place(map, count, node.0);
    if count <= place {
        return 0;
    }
    num::get8(map, NODES + NODE * place + INCARNATION)
}

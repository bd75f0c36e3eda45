// A placement beside the map's nodes.
ghost use Rattle.std.specs.Prelude.{◌≡◌, ◌≤◌};
ghost use Rattle.spec.specs.Map.Create.{first_not_alive};
ghost use Rattle.map_tables.specs.View.{view_placement};
ghost use Rattle.map_create.specs.Walk.{walked_of};
ghost use Rattle.image_map_put.specs.Few.{Few};
ghost use Rattle.image_map_put.specs.Rows.{read_as};

use crate::nodes::is_alive;
use map_create::list_size;
use map_tables::Placement;
use spec::DataNodeId;

// 5: the first node not alive, in placement order, ends both walks.
pub fn walk(map: &[u8], p: Placement) -> Option<DataNodeId>
    requires { Few map.now × (p.count ≤ 16) }
    ensures { result ≡ walked_of (first_not_alive (read_as map.now).nodes (view_placement p)) }
{
    let lists = p.count;
    for i in 0..lists {
        let list = p.lists[i];
        let n = list_size(list);
        for j in 0..n {
            let node = list.nodes[j];
            if !is_alive(map, node) {
                return Some(node);
            }
        }
    }
    None
}

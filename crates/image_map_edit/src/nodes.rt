// The nodes of a map, put where they belong or changed where they stand.
ghost use Rattle.std.specs.Prelude.{◌≡◌, not, ◌+◌, ◌*◌, ◌≤◌, ◌<◌, ltb, length, set};
ghost use Rattle.spec.specs.Lists.{◌and◌, put};
ghost use Rattle.spec.specs.Layout.Format.{number_at};
ghost use Rattle.spec.specs.Map.Apply.{node_below};
ghost use Rattle.map_tables.specs.View.{view_node};
ghost use Rattle.image_map_row.specs.Rows.{node_at};
ghost use Rattle.image_map_check.specs.Places.{NodesCount};
ghost use Rattle.image_map_put.specs.Few.{Few};
ghost use Rattle.image_map_put.specs.Rows.{read_as};
ghost use Rattle.image_map_edit.specs.Becomes.{NodesBecome};

use image_map_check::layout::{NODE, NODES, NODES_USED};
use image_map_check::room::node_room;
use image_map_row::nodes::put_node;
use image_move::move_up;
use map_tables::NodeRow;

const NODE_WORDS: usize = 12;

// Whether the place is in use, and not by a later node.
fn is_level(s: &[u8], count: usize, place: usize, node: u64) -> bool
    requires { NodesCount s.now count }
    ensures { result ≡ (ltb place count and not (ltb node (view_node (node_at s.now (40 + 96 * place))).node)) }
{
    if count <= place {
        return false;
    }
    if node < num::get8(s, NODES + NODE * place) {
        return false;
    }
    true
}

// Over the row of the node, or before those of the nodes above it.
pub fn node_put(out: &mut [u8], row: NodeRow)
    requires { Few out.old × (length (put node_below (view_node row) (read_as out.old).nodes) ≤ 32) }
    ensures { NodesBecome out.old out.new (put node_below (view_node row) (read_as out.old).nodes) }
{
    let count = num::get8(out, NODES_USED) as usize;
    let place = node_room(out, count, row.node.0);
    let at = NODES + NODE * place;
    if is_level(out, count, place, row.node.0) {
        put_node(out, at, row);
        return;
    }
    move_up(
        out,
        at,
        NODES + NODE * (place + 1),
        NODE_WORDS * (count - place),
    );
    put_node(out, at, row);
    num::put8(out, NODES_USED, (count + 1) as u64);
}

// A row over the one at a place.
pub fn node_set(out: &mut [u8], place: usize, row: NodeRow)
    requires { Few out.old × (place < number_at 8 out.old 8) }
    ensures { NodesBecome out.old out.new (set (read_as out.old).nodes place (view_node row)) }
{
    put_node(out, NODES + NODE * place, row);
}

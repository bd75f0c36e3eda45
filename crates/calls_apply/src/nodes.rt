// The commands of a node: Register and MarkNodeDead.
ghost use Rattle.std.specs.Prelude.{◌≡◌};
ghost use Rattle.map_tables.specs.declared.Command.TheVariants as command;
ghost use Rattle.calls_decide.specs.Decides.{Fresh};
ghost use Rattle.calls_apply.specs.Settles.{Accepted, Taken};

use image_map_check::layout::{NODE, NODES, NODES_USED};
use image_map_check::place::node_place;
use image_map_edit::nodes::{node_put, node_set};
use image_map_row::nodes::node_at;
use map_tables::{NodeRow, Request};
use spec::DataNodeId;

// The node is alive at the address and the incarnation.
pub fn register(map: &mut [u8], r: Request, node: DataNodeId, incarnation: u64)
    requires { Fresh map.old r × Accepted map.old r × (r.command ≡ command.Register node incarnation) }
    ensures { Taken map.old map.new r }
{
    let address = r.address;
    let row = NodeRow {
        node: node,
        address: address,
        incarnation: incarnation,
        alive: true,
    };
    node_put(map, row);
}

// The node's row says that it is dead.
pub fn mark_dead(map: &mut [u8], r: Request, node: DataNodeId, incarnation: u64)
    requires { Fresh map.old r × Accepted map.old r × (r.command ≡ command.MarkNodeDead node incarnation) }
    ensures { Taken map.old map.new r }
{
    let count = num::get8(map, NODES_USED) as usize;
    let hit = node_place(map, count, node.0);
    let mut row = node_at(map, NODES + NODE * hit);
    row.alive = false;
    node_set(map, hit, row);
}

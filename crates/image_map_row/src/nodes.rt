// Internal: the row of a node: 96 bytes.
ghost use Rattle.std.specs.Prelude.{◌≡◌, ◌+◌, ◌≤◌, length};
ghost use Rattle.image_parts.specs.Shape.{Stored};
ghost use Rattle.image_map_row.specs.Rows.{node_at, node_bytes};

use image_parts::codes::{flag_code, flag_of};
use image_parts::keys::{address_at, put_address};
use map_tables::NodeRow;
use spec::DataNodeId;

pub fn node_at(s: &[u8], at: usize) -> NodeRow
    requires { at + 96 ≤ length s.now }
    ensures { result ≡ node_at s.now at }
{
    let node = DataNodeId(num::get8(s, at));
    let incarnation = num::get8(s, at + 8);
    let alive = flag_of(num::get4(s, at + 16));
    let address = address_at(s, at + 24);
    NodeRow {
        node: node,
        address: address,
        incarnation: incarnation,
        alive: alive,
    }
}

pub fn put_node(out: &mut [u8], at: usize, r: NodeRow)
    requires { at + 96 ≤ length out.old }
    ensures { Stored out.old out.new at (node_bytes r) 96 }
{
    num::put8(out, at, r.node.0);
    num::put8(out, at + 8, r.incarnation);
    num::put4(out, at + 16, flag_code(r.alive));
    num::put4(out, at + 20, 0);
    put_address(out, at + 24, r.address);
}

// The answers to Register and MarkNodeDead, over the row of the node.
ghost use Rattle.std.specs.Prelude.{◌≡◌};
ghost use Rattle.spec.specs.Map.Apply.{register_answer, dead_answer};
ghost use Rattle.spec.specs.Map.Create.{node_at};
ghost use Rattle.map_tables.specs.View.{answer_of, view_nodes};
ghost use Rattle.image_map.specs.Image.{nodes_at};
ghost use Rattle.image_map_put.specs.Few.{Few};

use image_map_check::layout::{INCARNATION, NODE, NODES, NODES_USED};
use image_map_check::place::node_place;
use map_tables::answers::{applied, no_key, refused, rejected};
use map_tables::{Refusal, Rejection, Verdict};
use spec::DataNodeId;

// 7, 23.
pub fn register_answer(map: &[u8], node: DataNodeId, incarnation: u64) -> Verdict
    requires { Few map.now }
    ensures { answer_of result ≡ register_answer (view_nodes (nodes_at map.now)) node.0 incarnation (node_at (view_nodes (nodes_at map.now)) node.0) }
{
    let count = num::get8(map, NODES_USED) as usize;
    let hit = node_place(map, count, node.0);
    if hit < count {
        let known = num::get8(map, NODES + NODE * hit + INCARNATION);
        if incarnation <= known {
            return rejected(Rejection::KnownIncarnation(node, known), no_key());
        }
        return applied();
    }
    if 32 <= count {
        return refused(Refusal::NoRoom);
    }
    applied()
}

// 8.
pub fn dead_answer(map: &[u8], node: DataNodeId, incarnation: u64) -> Verdict
    requires { Few map.now }
    ensures { answer_of result ≡ dead_answer node.0 incarnation (node_at (view_nodes (nodes_at map.now)) node.0) }
{
    let count = num::get8(map, NODES_USED) as usize;
    let hit = node_place(map, count, node.0);
    if hit < count {
        if num::get8(map, NODES + NODE * hit + INCARNATION) == incarnation {
            return applied();
        }
    }
    rejected(Rejection::NotAtIncarnation(node, incarnation), no_key())
}

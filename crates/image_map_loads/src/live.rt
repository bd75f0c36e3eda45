// The live nodes with their loads.
ghost use Rattle.std.specs.Prelude.{◌≡◌, ◌+◌, ◌≤◌, length};
ghost use Rattle.image_map_row.specs.Rows.{node_at};
ghost use Rattle.image_map_loads.specs.Loads.{Used, Live};

use crate::replicas::replicas_of;
use image_map_check::layout::{ALIVE, NODE, NODES, NODES_USED, SHARDS_USED};
use image_parts::codes::flag_of;
use map_place::Loads;

pub fn is_alive(s: &[u8], at: usize) -> bool
    requires { at + 96 ≤ length s.now }
    ensures { result ≡ (node_at s.now at).alive }
{
    flag_of(num::get4(s, at + ALIVE))
}

pub fn live_loads(s: &[u8]) -> Loads
    requires { Used s.now }
    ensures { Live s.now result }
{
    let nodes = num::get8(s, NODES_USED) as usize;
    let shards = num::get8(s, SHARDS_USED) as usize;
    let mut ids = [0u64; 32];
    let mut counts = [0u64; 32];
    let mut n: usize = 0;
    for i in 0..nodes {
        let at = NODES + NODE * i;
        if !is_alive(s, at) {
            continue;
        }
        let id = num::get8(s, at);
        let count = replicas_of(s, shards, id);
        ids[n] = id;
        counts[n] = count;
        n += 1;
    }
    Loads {
        ids: ids,
        counts: counts,
        count: n,
    }
}

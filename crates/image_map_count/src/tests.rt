// Internal: what the map says of a request: the name, the ids that are alive, and room for the shards. Of a well-formed map, in its bytes.
ghost use Rattle.std.specs.Prelude.{◌≡◌, ◌≤◌};
ghost use Rattle.spec.specs.Map.Create.{node_at, is_alive, has_collection};
ghost use Rattle.map_tables.specs.Names.{view_name};
ghost use Rattle.map_tables.specs.View.{view_nodes, view_map};
ghost use Rattle.image_map.specs.Image.{nodes_at, map_at};
ghost use Rattle.image_map_check.specs.Places.{NodesCount};
ghost use Rattle.spec_count.specs.Closed.{alive_among, room_for};
ghost use Rattle.image_map_count.specs.Read.{view_ids, Formed};

use crate::IdSet;
use image_map_check::layout::{ALIVE, COLLECTIONS_USED, NODE, NODES, NODES_USED, SHARDS_USED};
use image_map_check::place::{collection_place, node_place, shard_place};
use image_parts::codes::flag_of;
use map_tables::{Name, ShardKey};

// 2: the name is taken.
pub fn is_taken(map: &[u8], name: Name) -> bool
    requires { Formed map.now }
    ensures { result ≡ has_collection (view_name name) (view_map (map_at map.now)).collections }
{
    let count = num::get8(map, COLLECTIONS_USED) as usize;
    let at = collection_place(map, count, name);
    at < count
}

// A node that the map knows alive.
fn is_alive(map: &[u8], count: usize, id: u64) -> bool
    requires { NodesCount map.now count }
    ensures { result ≡ is_alive (node_at (view_nodes (nodes_at map.now)) id) }
{
    let at = node_place(map, count, id);
    if count <= at {
        return false;
    }
    let row = NODES + NODE * at;
    flag_of(num::get4(map, row + ALIVE))
}

// 5: how many of the ids the map knows alive.
pub fn alive_among(map: &[u8], ids: IdSet) -> u64
    requires { (Formed map.now) × (ids.count ≤ 4) }
    ensures { result ≡ alive_among (view_map (map_at map.now)).nodes (view_ids ids) }
{
    let known = num::get8(map, NODES_USED) as usize;
    let count = ids.count;
    let mut n: u64 = 0;
    for i in 0..count {
        let id = ids.items[i];
        if !is_alive(map, known, id) {
            continue;
        }
        n += 1;
    }
    n
}

// 23: room for that many shards: those whose keys the map has take no new row.
pub fn room_for(map: &[u8], name: Name, shards: u32) -> bool
    requires { (Formed map.now) × (shards ≤ 16) }
    ensures { result ≡ room_for (view_map (map_at map.now)) (view_name name) shards }
{
    if 16 <= num::get8(map, COLLECTIONS_USED) {
        return false;
    }
    let count = num::get8(map, SHARDS_USED) as usize;
    let mut total = count;
    for i in 0..shards {
        let key = ShardKey {
            collection: name,
            shard: i,
        };
        if shard_place(map, count, key) < count {
            continue;
        }
        total += 1;
    }
    total <= 64
}

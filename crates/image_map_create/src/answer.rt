// Create's answer, with nothing changed yet.
ghost use Rattle.std.specs.Prelude.{◌≡◌, true, List, ℕ, ◌≤◌, length};
ghost use Rattle.spec.specs.Lists.{rising};
ghost use Rattle.spec.specs.Map.Create.{shard_below, create_room, create_answer};
ghost use Rattle.map_tables.specs.Names.{view_name};
ghost use Rattle.map_tables.specs.View.{view_spec, view_placement, answer_of};
ghost use Rattle.image_map_put.specs.Few.{Few};
ghost use Rattle.image_map_put.specs.Rows.{read_as};

use crate::lists::walk;
use crate::room::absent_keys;
use image_map_check::layout::{COLLECTIONS_USED, SHARDS_USED};
use image_map_check::place::collection_place;
use map_create::{lists_match, zero_in};
use map_tables::answers::{applied, refused, rejected};
use map_tables::{Name, Placement, Refusal, Rejection, ShardKey, Spec, Verdict};

// 23: a 17th collection or a 65th shard, of a placement with so many lists.
fn has_room(map: &[u8], name: Name, lists: usize) -> bool
    requires { Few map.now × (rising shard_below (read_as map.now).shards ≡ true) × (lists ≤ 16) }
    ensures { (p : List (List ℕ)) → length p ≡ lists → result ≡ create_room (read_as map.now) (view_name name) p }
{
    let collections = num::get8(map, COLLECTIONS_USED);
    if 16 <= collections {
        return false;
    }
    let shards = num::get8(map, SHARDS_USED) as usize;
    shards + absent_keys(map, name, lists) <= 64
}

// 2, 3, 4, 5, 23: a function of the map, the name, the spec and the placement alone.
pub fn create_answer(map: &[u8], name: Name, spec: Spec, p: Placement) -> Verdict
    requires { Few map.now × (rising shard_below (read_as map.now).shards ≡ true) × (p.count ≤ 16) }
    ensures { answer_of result ≡ create_answer (read_as map.now) (view_name name) (view_spec spec) (view_placement p) }
{
    let key = ShardKey {
        collection: name,
        shard: 0,
    };
    let count = num::get8(map, COLLECTIONS_USED) as usize;
    if collection_place(map, count, name) < count {
        return rejected(Rejection::Exists, key);
    }
    if zero_in(spec) {
        return rejected(Rejection::ZeroSpec, key);
    }
    let shards = spec.shards as usize;
    let lists = p.count;
    if lists != shards {
        return rejected(Rejection::PlacementMismatch, key);
    }
    if !lists_match(p, spec.replication) {
        return rejected(Rejection::PlacementMismatch, key);
    }
    let walked = walk(map, p);
    if let Some(node) = walked {
        return rejected(Rejection::NotAlive(node), key);
    }
    if !has_room(map, name, lists) {
        return refused(Refusal::NoRoom);
    }
    applied()
}

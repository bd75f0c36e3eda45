// Drop in a map's image, in place (paper 01, 'The shard map'): a collection and all of its shards are taken out of their tables. Each row that
// stays moves down over those that go. Rows past the new count keep their bytes; `image_map_put` then gives every row in use its one form. Internal.
#![tactic(auto)]

ghost use Rattle.std.specs.Prelude.{◌≡◌, cond, not};
ghost use Rattle.spec.specs.Keys.{same_name};
ghost use Rattle.spec.specs.Lists.{filter};
ghost use Rattle.spec.specs.Map.Apply.{set_collections};
ghost use Rattle.spec.specs.Map.Change.{accepts, rejects};
ghost use Rattle.spec.specs.Map.Create.{has_collection};
ghost use Rattle.spec.specs.Refusals.{no_collection};
ghost use Rattle.map_tables.specs.Names.{view_name};
ghost use Rattle.map_tables.specs.View.{answer_of};
ghost use Rattle.image_map_put.specs.Few.{Few};
ghost use Rattle.image_map_put.specs.Rows.{read_as};
ghost use Rattle.image_map_edit.specs.Edits.{Edits};

use crate::collections::collections_without;
use crate::shards::shards_without;
use image_map_check::layout::COLLECTIONS_USED;
use image_map_check::place::collection_place;
use map_tables::answers::{applied, rejected};
use map_tables::{Name, Rejection, ShardKey, Verdict};

mod collections;
mod rows;
mod shards;

// 6: no collection of that name.
pub fn drop_answer(map: &[u8], key: ShardKey) -> Verdict
    requires { Few map.now }
    ensures { answer_of result ≡ cond (has_collection (view_name key.collection) (read_as map.now).collections) accepts (rejects (no_collection (view_name key.collection))) }
{
    let count = num::get8(map, COLLECTIONS_USED) as usize;
    if collection_place(map, count, key.collection) < count {
        return applied();
    }
    rejected(Rejection::NoCollection, key)
}

// The collection and its shards taken out.
pub fn drop_collection(map: &mut [u8], name: Name)
    requires { Few map.old }
    ensures { Edits map.old map.new (set_collections (read_as map.old) (filter (λ c. not (same_name c.name (view_name name))) (read_as map.old).collections) (filter (λ x. not (same_name x.key.collection (view_name name))) (read_as map.old).shards)) }
{
    collections_without(map, name);
    shards_without(map, name);
}

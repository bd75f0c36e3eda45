// Create in a map's image, in place (paper 01, 'The shard map' and 'Who is turned down'): its answer, decided from the bytes before any is written,
// and the collection with its shards put in. `image_map_put` then gives every row in use its one form. Internal.
#![tactic(auto)]

ghost use Rattle.std.specs.Prelude.{◌≡◌, ◌≤◌};
ghost use Rattle.spec.specs.Map.Apply.{set_collections};
ghost use Rattle.spec.specs.Map.Change.{accepts};
ghost use Rattle.spec.specs.Map.Create.{create_answer, created_collections, created_shards};
ghost use Rattle.map_tables.specs.Names.{view_name};
ghost use Rattle.map_tables.specs.View.{view_placement, view_spec};
ghost use Rattle.image_map_put.specs.Few.{Few};
ghost use Rattle.image_map_put.specs.Rows.{read_as};
ghost use Rattle.image_map_edit.specs.Edits.{Edits};

use crate::shards::shards_put;
use image_map_add::collections::collection_put;
use map_tables::{CollectionRow, Name, Placement, Spec};

pub mod answer;
mod lists;
mod nodes;
mod room;
mod shards;

// A collection that is accepted put in, with its shards.
pub fn create_collection(map: &mut [u8], name: Name, spec: Spec, p: Placement)
    requires { Few map.old × (create_answer (read_as map.old) (view_name name) (view_spec spec) (view_placement p) ≡ accepts) × (p.count ≤ 16) }
    ensures { Edits map.old map.new (set_collections (read_as map.old) (created_collections (read_as map.old) (view_name name) (view_spec spec)) (created_shards (read_as map.old) (view_name name) (view_placement p))) }
{
    let row = CollectionRow {
        name: name,
        spec: spec,
    };
    collection_put(map, row);
    shards_put(map, name, p);
}

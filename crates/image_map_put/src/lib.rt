// A map's image written back in place (docs/IMAGES.md): every row in use in the one form. Version, counts and rows past a count stay as they are.
// A call changes the bytes of the rows that it means to change, then writes the map back. Internal.
#![tactic(auto)]

ghost use Rattle.std.specs.Prelude.{◌≡◌, map, ◌+◌, ◌*◌, ◌≤◌, length, drop};
ghost use Rattle.std.proofs.lemmas.List.Edits.{sets};
ghost use Rattle.spec.specs.Layout.Format.{concat_map};
ghost use Rattle.map_tables.specs.View.{view_node, view_collection, view_shard, view_session};
ghost use Rattle.image_parts.specs.Shape.{items};
ghost use Rattle.image_map_row.specs.Rows.{node_at, node_bytes, collection_at, collection_bytes, shard_at, shard_bytes, session_at, session_bytes};
ghost use Rattle.image_map_form.specs.Canon.{image_node, image_collection, image_shard, image_session};
ghost use Rattle.image_map.specs.Image.{map_at, MapWrites};
ghost use Rattle.image_map_put.specs.Few.{Few};

use crate::rows::{collection_tidied, node_tidied, session_tidied, shard_tidied};
use image_map_check::layout::{
    COLLECTION, COLLECTIONS, COLLECTIONS_USED, NODE, NODES, NODES_USED, SESSION, SESSIONS,
    SESSIONS_USED, SHARD, SHARDS, SHARDS_USED,
};

mod rows;

fn nodes_tidied(out: &mut [u8], count: usize)
    requires { (26536 ≤ length out.old) × (count ≤ 32) }
    ensures { (out.new ≡ sets out.old 40 (concat_map node_bytes (map image_node (map view_node (items count (node_at out.old) 96 40))))) × (drop (40 + 96 * count) out.new ≡ drop (40 + 96 * count) out.old) }
{
    for i in 0..count {
        node_tidied(out, NODES + NODE * i);
    }
}

fn collections_tidied(out: &mut [u8], count: usize)
    requires { (26536 ≤ length out.old) × (count ≤ 16) }
    ensures { (out.new ≡ sets out.old 3112 (concat_map collection_bytes (map image_collection (map view_collection (items count (collection_at out.old) 56 3112))))) × (drop (3112 + 56 * count) out.new ≡ drop (3112 + 56 * count) out.old) }
{
    for i in 0..count {
        collection_tidied(out, COLLECTIONS + COLLECTION * i);
    }
}

fn shards_tidied(out: &mut [u8], count: usize)
    requires { (26536 ≤ length out.old) × (count ≤ 64) }
    ensures { (out.new ≡ sets out.old 4008 (concat_map shard_bytes (map image_shard (map view_shard (items count (shard_at out.old) 272 4008))))) × (drop (4008 + 272 * count) out.new ≡ drop (4008 + 272 * count) out.old) }
{
    for i in 0..count {
        shard_tidied(out, SHARDS + SHARD * i);
    }
}

fn sessions_tidied(out: &mut [u8], count: usize)
    requires { (26536 ≤ length out.old) × (count ≤ 64) }
    ensures { (out.new ≡ sets out.old 21416 (concat_map session_bytes (map image_session (map view_session (items count (session_at out.old) 80 21416))))) × (drop (21416 + 80 * count) out.new ≡ drop (21416 + 80 * count) out.old) }
{
    for i in 0..count {
        session_tidied(out, SESSIONS + SESSION * i);
    }
}

// The map that the bytes are read as, in its one form.
pub fn put_tidied(out: &mut [u8])
    requires { Few out.old }
    ensures { MapWrites out.old out.new (map_at out.old) }
{
    let nodes = num::get8(out, NODES_USED) as usize;
    let collections = num::get8(out, COLLECTIONS_USED) as usize;
    let shards = num::get8(out, SHARDS_USED) as usize;
    let sessions = num::get8(out, SESSIONS_USED) as usize;
    nodes_tidied(out, nodes);
    collections_tidied(out, collections);
    shards_tidied(out, shards);
    sessions_tidied(out, sessions);
}

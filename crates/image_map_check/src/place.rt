// Where the row of a node, a collection, a shard or a client stands.
ghost use Rattle.std.specs.Prelude.{◌≡◌};
ghost use Rattle.spec.specs.Map.Apply.{is_client, is_shard};
ghost use Rattle.spec.specs.Map.Create.{is_node, is_named};
ghost use Rattle.map_tables.specs.Names.{view_key, view_name};
ghost use Rattle.map_tables.specs.Find.{first_at};
ghost use Rattle.map_tables.specs.View.{view_nodes, view_collections, view_sessions, view_shards};
ghost use Rattle.image_map.specs.Image.{nodes_at, collections_at, shards_at, sessions_at};
ghost use Rattle.image_map_check.specs.Places.{NodesCount, CollectionsCount, ShardsCount, SessionsCount};

use crate::layout::{COLLECTION, COLLECTIONS, NODE, NODES, SESSION, SESSIONS, SHARD, SHARDS};
use crate::table::first_passing;
use image_parts::keys::{key_at, name_at};
use map_tables::names::{same_key, same_name};
use map_tables::{Name, ShardKey};

// The place of the node, or `count`.
pub fn node_place(s: &[u8], count: usize, node: u64) -> usize
    requires { NodesCount s.now count }
    ensures { result ≡ first_at (is_node node) (view_nodes (nodes_at s.now)) }
{
    first_passing(count, |i| num::get8(s, NODES + NODE * i) == node)
}

// The place of the collection, or `count`.
pub fn collection_place(s: &[u8], count: usize, name: Name) -> usize
    requires { CollectionsCount s.now count }
    ensures { result ≡ first_at (is_named (view_name name)) (view_collections (collections_at s.now)) }
{
    first_passing(count, |i| {
        let k = name_at(s, COLLECTIONS + COLLECTION * i);
        same_name(k, name)
    })
}

// The place of the client's session, or `count`.
pub fn session_place(s: &[u8], count: usize, client: u64) -> usize
    requires { SessionsCount s.now count }
    ensures { result ≡ first_at (is_client client) (view_sessions (sessions_at s.now)) }
{
    first_passing(count, |i| num::get8(s, SESSIONS + SESSION * i) == client)
}

// The place of the key's shard, or `count`.
pub fn shard_place(s: &[u8], count: usize, key: ShardKey) -> usize
    requires { ShardsCount s.now count }
    ensures { result ≡ first_at (is_shard (view_key key)) (view_shards (shards_at s.now)) }
{
    first_passing(count, |i| {
        let k = key_at(s, SHARDS + SHARD * i);
        same_key(k, key)
    })
}

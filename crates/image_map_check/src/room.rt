// Where a row belongs in its table, past all that stand below it; its place is taken where the row there does not stand above it.
ghost use Rattle.std.specs.Prelude.{◌≡◌, ltb};
ghost use Rattle.spec.specs.Keys.{key_below, name_below};
ghost use Rattle.spec.specs.Lists.{lead};
ghost use Rattle.map_tables.specs.Names.{view_key, view_name};
ghost use Rattle.map_tables.specs.View.{view_nodes, view_collections, view_shards, view_sessions};
ghost use Rattle.image_map.specs.Image.{nodes_at, collections_at, shards_at, sessions_at};
ghost use Rattle.image_map_check.specs.Places.{NodesCount, CollectionsCount, ShardsCount, SessionsCount};

use crate::layout::{COLLECTION, COLLECTIONS, NODE, NODES, SESSION, SESSIONS, SHARD, SHARDS};
use crate::table::first_passing;
use image_parts::keys::{key_at, name_at};
use map_tables::names::{key_below, name_below};
use map_tables::{Name, ShardKey};

pub fn node_room(s: &[u8], count: usize, node: u64) -> usize
    requires { NodesCount s.now count }
    ensures { result ≡ lead (λ y. ltb y.node node) (view_nodes (nodes_at s.now)) }
{
    first_passing(count, |i| node <= num::get8(s, NODES + NODE * i))
}

pub fn collection_room(s: &[u8], count: usize, name: Name) -> usize
    requires { CollectionsCount s.now count }
    ensures { result ≡ lead (λ y. name_below y.name (view_name name)) (view_collections (collections_at s.now)) }
{
    first_passing(count, |i| {
        let k = name_at(s, COLLECTIONS + COLLECTION * i);
        !name_below(k, name)
    })
}

pub fn shard_room(s: &[u8], count: usize, key: ShardKey) -> usize
    requires { ShardsCount s.now count }
    ensures { result ≡ lead (λ y. key_below y.key (view_key key)) (view_shards (shards_at s.now)) }
{
    first_passing(count, |i| {
        let k = key_at(s, SHARDS + SHARD * i);
        !key_below(k, key)
    })
}

pub fn session_room(s: &[u8], count: usize, client: u64) -> usize
    requires { SessionsCount s.now count }
    ensures { result ≡ lead (λ y. ltb y.client client) (view_sessions (sessions_at s.now)) }
{
    first_passing(count, |i| client <= num::get8(s, SESSIONS + SESSION * i))
}

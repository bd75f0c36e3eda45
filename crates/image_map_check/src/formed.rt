// The map's test (paper 01, 'Who is turned down', 24), over its bytes: each table in one pass, row after row, only the rows in use.
ghost use Rattle.std.specs.Prelude.{◌≡◌, ◌≤◌, length};
ghost use Rattle.image_map.specs.Image.{nodes_at, collections_at, shards_at, sessions_at, map_at};
ghost use Rattle.map_check.specs.Lent.{nodes_fit, collections_fit, shards_fit, sessions_fit, well_formed_lent};

use crate::layout::{
    COLLECTION, COLLECTIONS, COLLECTIONS_USED, NODE, NODES, NODES_USED, SESSION, SESSIONS,
    SESSIONS_USED, SHARD, SHARDS, SHARDS_USED,
};
use crate::rows::{collection_follows, node_follows, session_follows, shard_follows};
use crate::table::each_follows;

fn nodes_fit(s: &[u8]) -> bool
    requires { 26536 ≤ length s.now }
    ensures { result ≡ nodes_fit (nodes_at s.now) }
{
    let n = num::get8(s, NODES_USED);
    if 32 < n {
        return false;
    }
    each_follows(n as usize, |i, last| {
        node_follows(s, i, NODES + NODE * last, NODES + NODE * i)
    })
}

fn collections_fit(s: &[u8]) -> bool
    requires { 26536 ≤ length s.now }
    ensures { result ≡ collections_fit (collections_at s.now) }
{
    let n = num::get8(s, COLLECTIONS_USED);
    if 16 < n {
        return false;
    }
    each_follows(n as usize, |i, last| {
        collection_follows(
            s,
            i,
            COLLECTIONS + COLLECTION * last,
            COLLECTIONS + COLLECTION * i,
        )
    })
}

fn shards_fit(s: &[u8]) -> bool
    requires { 26536 ≤ length s.now }
    ensures { result ≡ shards_fit (shards_at s.now) }
{
    let n = num::get8(s, SHARDS_USED);
    if 64 < n {
        return false;
    }
    each_follows(n as usize, |i, last| {
        shard_follows(s, i, SHARDS + SHARD * last, SHARDS + SHARD * i)
    })
}

fn sessions_fit(s: &[u8]) -> bool
    requires { 26536 ≤ length s.now }
    ensures { result ≡ sessions_fit (sessions_at s.now) }
{
    let n = num::get8(s, SESSIONS_USED);
    if 64 < n {
        return false;
    }
    each_follows(n as usize, |i, last| {
        session_follows(s, i, SESSIONS + SESSION * last, SESSIONS + SESSION * i)
    })
}

// A map that is not malformed.
pub fn is_formed(s: &[u8]) -> bool
    requires { 26536 ≤ length s.now }
    ensures { result ≡ well_formed_lent (map_at s.now) }
{
    if !nodes_fit(s) {
        return false;
    }
    if !collections_fit(s) {
        return false;
    }
    if !shards_fit(s) {
        return false;
    }
    sessions_fit(s)
}

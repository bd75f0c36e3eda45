// Whether a buffer lends a map.
ghost use Rattle.std.specs.Prelude.{◌≡◌, ◌≤◌, length};
ghost use Rattle.image_map.specs.Image.{codes_listed, map_lent};

use crate::layout::{
    COLLECTION, COLLECTIONS_USED, IMAGE, NODE, NODES_USED, SESSION, SESSIONS_USED, SHARD,
    SHARDS_USED,
};
use image_parts::bytes::{codes_below, count_at};

// Where the first row of each table has its code.
const ALIVE: usize = 56;

const METRIC: usize = 3156;

const PRIMARY: usize = 4052;

const OUTCOME: usize = 21476;

fn codes_listed(s: &[u8]) -> bool
    requires { 26536 ≤ length s.now }
    ensures { result ≡ codes_listed s.now }
{
    let nodes = count_at(s, NODES_USED, 32);
    if !codes_below(s, 2, NODE, nodes, ALIVE) {
        return false;
    }
    let collections = count_at(s, COLLECTIONS_USED, 16);
    if !codes_below(s, 2, COLLECTION, collections, METRIC) {
        return false;
    }
    let shards = count_at(s, SHARDS_USED, 64);
    if !codes_below(s, 2, SHARD, shards, PRIMARY) {
        return false;
    }
    let sessions = count_at(s, SESSIONS_USED, 64);
    codes_below(s, 17, SESSION, sessions, OUTCOME)
}

// At least as long as an image, and every code of a row in use is listed.
pub fn is_lent(s: &[u8]) -> bool
    ensures { result ≡ map_lent s.now }
{
    if s.len() < IMAGE {
        return false;
    }
    codes_listed(s)
}

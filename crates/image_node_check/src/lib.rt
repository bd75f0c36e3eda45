// The state that a call which names a shard is lent (paper 01, 'Who is turned down', 24): a header and eight stores as bytes, tested where they
// stand. Internal: what the calls with a store begin with.
#![tactic(auto)]

ghost use Rattle.map_tables.specs.Names.{view_key};
ghost use Rattle.image_node_check.specs.Find.{FindsIn};

use image_header::is_lent;
use image_header_check::formed::is_formed;
use image_header_check::place::place_at;
use image_layout::header::{LAST, ROW, ROWS, SHARDS, SLOT, STORED};
use image_layout::stores::{STORE, STORES};
use image_store_check::is_store;
use map_tables::ShardKey;
use node_lent::Lent;

// Where the shard of a key stands in the header, if the header passes its test and the shard's store its own.
pub fn find(header: &[u8], stores: &[u8], key: ShardKey) -> Lent
    ensures { FindsIn header.now stores.now (view_key key) result }
{
    if !is_lent(header) {
        return Lent::Malformed;
    }
    if !is_formed(header) {
        return Lent::Malformed;
    }
    if stores.len() < STORES {
        return Lent::Malformed;
    }
    let count = num::get8(header, SHARDS) as usize;
    let at = place_at(header, count, key);
    if count <= at {
        return Lent::Absent;
    }
    let row = ROWS + ROW * at;
    let slot = num::get8(header, row + SLOT) as usize;
    let last = num::get8(header, row + LAST) as usize;
    let stored = num::get8(header, row + STORED) as usize;
    if !is_store(stores, slot * STORE, last, stored) {
        return Lent::Malformed;
    }
    Lent::At(at)
}

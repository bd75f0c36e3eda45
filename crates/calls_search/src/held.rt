// Search on one held shard (paper 01, 'Who is turned down', Search), past the test of the lent state.
ghost use Rattle.std.specs.Prelude.{◌≡◌, true};
ghost use Rattle.spec.specs.Node.WellFormed.{well_formed_vector};
ghost use Rattle.map_tables.specs.Names.{view_key};
ghost use Rattle.image_header.specs.Image.{node_at};
ghost use Rattle.image_node.specs.Lent.{lent_store_in};
ghost use Rattle.image_node_check.specs.Find.{held_row_in, FoundIn};
ghost use Rattle.calls_client_out.specs.Found.{ended};
ghost use Rattle.calls_parts.specs.Refusals.{number_of};
ghost use Rattle.calls_search.specs.Served.{NamedServed, NearestHeld};

use crate::hits::put_found;
use calls_parts::answer::put_number;
use calls_parts::refusal::Refusal;
use image_header::expiry_of;
use image_header_row::held::role_at;
use image_layout::header::{EPOCH, LAST, LEASE, LEASE_TIME, METRIC, ROLE, ROW, ROWS, SLOT, STORED};
use image_layout::stores::STORE;
use image_parts::codes::metric_of;
use log_search::answer::least;
use log_select::select::Hits;
use map_tables::ShardKey;
use node_admit::lease::leased;
use node_shard::rows::leads;
use spec::Epoch;

// As many as a log can have.
const MOST: usize = 1024;

// The first k of the shard's vectors, in order.
fn nearest_held(
    header: &[u8],
    stores: &[u8],
    key: ShardKey,
    at: usize,
    query: &[f32],
    k: u32,
) -> Hits
    requires { FoundIn header.now stores.now (view_key key) at × (well_formed_vector query.now ≡ true) }
    ensures { NearestHeld stores.now (held_row_in header.now stores.now (view_key key) at) query.now k result }
{
    let row = ROWS + ROW * at;
    let slot = num::get8(header, row + SLOT) as usize;
    let last = num::get8(header, row + LAST) as usize;
    let stored = num::get8(header, row + STORED) as usize;
    let metric = metric_of(num::get4(header, row + METRIC));
    let most = least(k as usize, MOST);
    image_store_search::nearest(stores, slot * STORE, last, stored, metric, query, most)
}

// 18, 19, then 23 if the output is short of the answer.
pub fn search_held(
    header: &[u8],
    stores: &[u8],
    key: ShardKey,
    at: usize,
    clock: u64,
    epoch: Epoch,
    k: u32,
    query: &[f32],
    hits: &mut [u8],
    answer: &mut [u8],
) -> Result<(), Refusal>
    requires { FoundIn header.now stores.now (view_key key) at × (well_formed_vector query.now ≡ true) }
    ensures { NamedServed (node_at header.now) (lent_store_in stores.now (node_at header.now) (view_key key)) (view_key key)
        clock epoch.0 k query.now hits.old answer.old (ended (number_of result) hits.new answer.new) }
{
    let row = ROWS + ROW * at;
    let role = role_at(header, row + ROLE);
    if !leads(role, epoch.0) {
        put_number(answer, num::get8(header, row + EPOCH));
        return Err(Refusal::NotPrimary);
    }
    let lease = expiry_of(num::get4(header, LEASE), num::get8(header, LEASE_TIME));
    if !leased(lease, clock) {
        return Err(Refusal::NoLease);
    }
    let h = nearest_held(header, stores, key, at, query, k);
    put_found(hits, answer, h)
}

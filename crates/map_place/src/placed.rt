// Internal: one node for every replica of a shard, each shard in turn.
ghost use Rattle.std.specs.Prelude.{◌≡◌, ◌≤◌, length};
ghost use Rattle.spec.specs.Map.Place.{place_shards, place_on};
ghost use Rattle.map_tables.specs.View.{view_placement, view_spec};
ghost use Rattle.map_place.specs.Answers.{placed_of};
ghost use Rattle.map_place.specs.Read.{loads_in, view_loads, Light, Columns, ChosenList};

use crate::choose::choose_one;
use crate::lists::{no_lists, no_nodes};
use crate::{Loads, PlaceAnswer};
use map_tables::{NodeList, Placement, Refusal, Spec};

fn choose_list(
    ids: &[u64; 32],
    counts: &mut [u64; 32],
    count: usize,
    replication: usize,
) -> NodeList
    requires { (Columns ids.now counts.old count) × (replication ≤ 8) × Light 2048 (loads_in ids.now counts.old count) }
    ensures { ChosenList ids.now counts.old counts.new count replication result }
{
    let mut list = no_nodes();
    for i in 0..replication {
        list = choose_one(ids, counts, count, list);
    }
    list
}

fn place_lists(
    ids: &[u64; 32],
    counts: &mut [u64; 32],
    count: usize,
    shards: usize,
    replication: usize,
) -> Placement
    requires { (Columns ids.now counts.old count) × (shards ≤ 16) × (replication ≤ 8) × Light 512 (loads_in ids.now counts.old count) }
    ensures { view_placement result ≡ place_shards shards replication (loads_in ids.now counts.old count) }
{
    let empty = no_lists();
    let mut lists = empty.lists;
    for i in 0..shards {
        lists[i] = choose_list(ids, counts, count, replication);
    }
    Placement {
        lists: lists,
        count: shards,
    }
}

// Internal: 'Place' on the live nodes with their loads: none, then 23, then a placement.
pub fn place_on(loads: Loads, spec: Spec) -> PlaceAnswer
    requires { (loads.count ≤ 32) × (length (view_loads loads) ≡ loads.count) × Light 512 (view_loads loads) }
    ensures { placed_of result ≡ place_on (view_spec spec) (view_loads loads) }
{
    let shards = spec.shards as usize;
    let replication = spec.replication as usize;
    if loads.count < replication {
        return Ok(None);
    }
    if 16 < shards {
        return Err(Refusal::NoRoom);
    }
    if 8 < replication {
        return Err(Refusal::NoRoom);
    }
    let ids = loads.ids;
    let mut counts = loads.counts;
    let placement = place_lists(&ids, &mut counts, loads.count, shards, replication);
    Ok(Some(placement))
}

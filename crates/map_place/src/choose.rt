// Internal: the lightest node of those that a shard does not have yet. Ids and counts stand in two arrays, so that a count is raised where it stands.
ghost use Rattle.std.specs.Prelude.{◌≡◌, ◌≤◌, ◌<◌};
ghost use Rattle.std.proofs.Math.Option.{some};
ghost use Rattle.spec.specs.Lists.{filter};
ghost use Rattle.spec.specs.Map.Place.{lighter, lightest};
ghost use Rattle.map_tables.specs.View.{view_list};
ghost use Rattle.map_place.specs.Read.{view_load, loads_in, best_of, better, unlisted, Light, Columns, Raised, ChosenOne};

use crate::Load;
use crate::lists::{is_listed, listed};
use map_tables::NodeList;
use spec::DataNodeId;

// Fewer replicas first, then the lower id.
pub fn is_lighter(a: Load, b: Load) -> bool
    ensures { result ≡ lighter (view_load a) (view_load b) }
{
    if a.count < b.count {
        return true;
    }
    if b.count < a.count {
        return false;
    }
    a.node.0 < b.node.0
}

pub fn lighter_of(best: Option<Load>, l: Load) -> Option<Load>
    ensures { best_of result ≡ some (better (best_of best) (view_load l)) }
{
    let Some(x) = best else {
        return Some(l);
    };
    if is_lighter(l, x) {
        return Some(l);
    }
    Some(x)
}

pub fn lightest_of(
    ids: &[u64; 32],
    counts: &[u64; 32],
    count: usize,
    taken: NodeList,
) -> Option<Load>
    requires { (Columns ids.now counts.now count) × (taken.count ≤ 8) }
    ensures { best_of result ≡ lightest (filter (unlisted (view_list taken)) (loads_in ids.now counts.now count)) }
{
    let mut best = None;
    for i in 0..count {
        let l = Load {
            node: DataNodeId(ids[i]),
            count: counts[i],
        };
        if !is_listed(taken, l.node) {
            best = lighter_of(best, l);
        }
    }
    best
}

// One replica more on the node.
fn raise(ids: &[u64; 32], counts: &mut [u64; 32], count: usize, node: u64)
    requires { (Columns ids.now counts.old count) × Light 4096 (loads_in ids.now counts.old count) }
    ensures { Raised ids.now counts.old counts.new count node }
{
    for i in 0..count {
        if ids[i] == node {
            counts[i] = counts[i] + 1;
            return;
        }
    }
}

// One node more for the shard.
pub fn choose_one(ids: &[u64; 32], counts: &mut [u64; 32], count: usize, list: NodeList) -> NodeList
    requires { (Columns ids.now counts.old count) × (list.count < 8) × Light 4096 (loads_in ids.now counts.old count) }
    ensures { ChosenOne ids.now counts.old counts.new count list result }
{
    let best = lightest_of(ids, counts, count, list);
    let Some(l) = best else {
        return list;
    };
    let id = l.node;
    raise(ids, counts, count, id.0);
    listed(list, id)
}

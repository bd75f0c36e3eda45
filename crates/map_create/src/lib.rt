// What Create asks of a spec and of a placement's lists, and what a list makes of a new shard (paper 01, 'The shard map'; `spec`'s Map.Create).
// Internal: the calls over a map's image are crate `image_map_create`.
#![tactic(auto)]

ghost use Rattle.std.specs.Prelude.{◌≡◌, [], ◌≤◌, length};
ghost use Rattle.spec.specs.Lists.{every, nth};
ghost use Rattle.spec.specs.Map.Create.{add_all, list_matches, zero_in};
ghost use Rattle.map_tables.specs.View.{view_in_sync, view_list, view_placement, view_primary, view_spec};

use map_tables::holders_of::synced_added;
use map_tables::{InSync, NodeList, Placement, Spec};
use spec::DataNodeId;

// How many nodes a list has.
pub fn list_size(l: NodeList) -> usize
    ensures { (result ≡ length (view_list l)) × (result ≤ 8) }
{
    if l.count < 8 { l.count } else { 8 }
}

// 3, a zero in the spec.
pub fn zero_in(s: Spec) -> bool
    ensures { result ≡ zero_in (view_spec s) }
{
    if s.dimension == 0 {
        return true;
    }
    if s.shards == 0 {
        return true;
    }
    if s.replication == 0 {
        return true;
    }
    false
}

// 4: as many lists as shards, each with a node and no more than the replication.
pub fn lists_match(p: Placement, replication: u32) -> bool
    requires { p.count ≤ 16 }
    ensures { result ≡ every (list_matches replication) (view_placement p) }
{
    let most = replication as usize;
    let count = p.count;
    for i in 0..count {
        let list = p.lists[i];
        let n = list_size(list);
        if n == 0 {
            return false;
        }
        if most < n {
            return false;
        }
    }
    true
}

// The in-sync set of a new shard: a repeated node is in it once.
pub fn listed_synced(list: NodeList) -> InSync
    ensures { (view_in_sync result ≡ add_all [] (view_list list)) × (result.count ≤ 8) }
{
    let n = list_size(list);
    let mut out = InSync {
        items: [DataNodeId(0); 8],
        count: 0,
    };
    for j in 0..n {
        let node = list.nodes[j];
        let more = synced_added(out, node);
        out = more;
    }
    out
}

// The first node of a list is the primary.
pub fn first_of(list: NodeList) -> Option<DataNodeId>
    ensures { view_primary result ≡ nth (view_list list) 0 }
{
    let n = list_size(list);
    if n == 0 {
        return None;
    }
    let node = list.nodes[0];
    Some(node)
}

// Internal: the holders and the in-sync set of one shard.
ghost use Rattle.std.specs.Prelude.{◌≡◌, not, ◌++◌, ◌∷◌, [], ◌+◌, ◌≤◌, ◌<◌, length};
ghost use Rattle.spec.specs.Lists.{filter, put};
ghost use Rattle.spec.specs.Map.Change.{holds, in_sync, without, is_on, id_below};
ghost use Rattle.map_tables.specs.Find.{place_at};
ghost use Rattle.map_tables.specs.View.{view_holders, view_in_sync};

use crate::{Holders, InSync};
use spec::{DataNodeId, Replica};

// Internal: whether the node holds a copy.
pub fn has_holder(h: Holders, node: DataNodeId) -> bool
    requires { h.count ≤ 8 }
    ensures { result ≡ holds node.0 (view_holders h) }
{
    h.items[..h.count].iter().any(|row| row.node.0 == node.0)
}

// Internal: whether the node is in sync.
pub fn has_synced(s: InSync, node: DataNodeId) -> bool
    requires { s.count ≤ 8 }
    ensures { result ≡ in_sync node.0 (view_in_sync s) }
{
    s.items[..s.count].iter().any(|id| id.0 == node.0)
}

// Internal: one replica more, behind the others.
pub fn holder_added(h: Holders, r: Replica) -> Holders
    requires { h.count < 8 }
    ensures { (view_holders result ≡ view_holders h ++ (r ∷ [])) × (result.count ≡ h.count + 1) }
{
    let count = h.count;
    let mut items = h.items;
    items[count] = r;
    Holders {
        items: items,
        count: count + 1,
    }
}

// Internal: all replicas but those on the node.
// Stays two functions: of one over any row and a closure, what a call answers at a copied row did not prove in four tries.
pub fn holder_removed(h: Holders, node: DataNodeId) -> Holders
    requires { h.count ≤ 8 }
    ensures { (view_holders result ≡ filter (λ r. not (is_on node.0 r)) (view_holders h)) × (result.count ≤ 8) }
{
    let count = h.count;
    let xs = h.items;
    let mut out = xs;
    let mut n: usize = 0;
    for i in 0..count {
        let row = xs[i];
        if row.node.0 != node.0 {
            out[n] = row;
            n += 1;
        }
    }
    Holders {
        items: out,
        count: n,
    }
}

// Internal: all in-sync ids but that one.
pub fn synced_removed(s: InSync, node: DataNodeId) -> InSync
    requires { s.count ≤ 8 }
    ensures { (view_in_sync result ≡ without node.0 (view_in_sync s)) × (result.count ≤ 8) }
{
    let count = s.count;
    let xs = s.items;
    let mut out = xs;
    let mut n: usize = 0;
    for i in 0..count {
        let row = xs[i];
        if row.0 != node.0 {
            out[n] = row;
            n += 1;
        }
    }
    InSync {
        items: out,
        count: n,
    }
}

// Internal: where the id belongs: past all that stand below it.
fn synced_place(s: InSync, node: DataNodeId) -> usize
    requires { s.count ≤ 8 }
    ensures { result ≡ place_at id_below node (view_in_sync s) }
{
    let count = s.count;
    for i in 0..count {
        let row = s.items[i];
        if node.0 <= row.0 {
            return i;
        }
    }
    count
}

// Internal: the id put in, where it is not there yet with those after it moved up by one.
pub fn synced_added(s: InSync, node: DataNodeId) -> InSync
    requires { (s.count ≤ 8) × (length (put id_below node (view_in_sync s)) ≤ 8) }
    ensures { (view_in_sync result ≡ put id_below node (view_in_sync s)) × (result.count ≤ 8) }
{
    let count = s.count;
    let at = synced_place(s, node);
    let mut items = s.items;
    if at < count {
        let row = items[at];
        if row.0 <= node.0 {
            items[at] = node;
            return InSync {
                items: items,
                count: count,
            };
        }
    }
    let mut carry = node;
    for i in at..count + 1 {
        let y = items[i];
        items[i] = carry;
        carry = y;
    }
    InSync {
        items: items,
        count: count + 1,
    }
}

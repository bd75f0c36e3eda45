// Internal: lists of nodes, and placements, with nothing in them or with one node more.
ghost use Rattle.std.specs.Prelude.{◌≡◌, ◌++◌, ◌∷◌, [], ◌≤◌, ◌<◌, ◌+◌, eqb, length};
ghost use Rattle.spec.specs.Lists.{any};
ghost use Rattle.map_tables.specs.View.{view_list};

use map_tables::{NodeList, Placement};
use spec::DataNodeId;

pub fn no_nodes() -> NodeList
    ensures { result.count ≡ 0 }
{
    NodeList {
        nodes: [DataNodeId(0); 8],
        count: 0,
    }
}

pub fn no_lists() -> Placement
    ensures { (result.count ≡ 0) × (length result.lists ≡ 16) }
{
    let empty = no_nodes();
    Placement {
        lists: [empty; 16],
        count: 0,
    }
}

// Stays a for: as a chain over the slice it made each node that is tried cost half as much again.
pub fn is_listed(l: NodeList, node: DataNodeId) -> bool
    requires { l.count ≤ 8 }
    ensures { result ≡ any (eqb node.0) (view_list l) }
{
    for i in 0..l.count {
        let id = l.nodes[i];
        if node.0 == id.0 {
            return true;
        }
    }
    false
}

pub fn listed(l: NodeList, node: DataNodeId) -> NodeList
    requires { l.count < 8 }
    ensures { (view_list result ≡ view_list l ++ (node.0 ∷ [])) × (result.count ≡ l.count + 1) }
{
    let count = l.count;
    let mut nodes = l.nodes;
    nodes[count] = node;
    NodeList {
        nodes: nodes,
        count: count + 1,
    }
}

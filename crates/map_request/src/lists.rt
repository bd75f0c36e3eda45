// Internal: the lists of a placement, copied out of the message. Places past a count are zero.
ghost use Rattle.std.specs.Prelude.{◌≡◌, true, ◌≤◌};
ghost use Rattle.map_tables.specs.View.{view_list, view_placement};
ghost use Rattle.map_request.specs.Parts.{Nodes, Lists, nodes_at, lists_at, listed_rows};

use map_tables::{NodeList, Placement};
use spec::DataNodeId;
use wire_read::Part;

pub fn no_list() -> NodeList
    ensures { result.count ≡ 0 }
{
    NodeList {
        nodes: [DataNodeId(0); 8],
        count: 0,
    }
}

fn load_list(s: &[u8], p: Part) -> NodeList
    requires { Nodes s.now p }
    ensures { (view_list result ≡ nodes_at s.now p) × (result.count ≤ 8) }
{
    let n = p.len;
    let mut nodes = [DataNodeId(0); 8];
    for i in 0..n {
        nodes[i] = wire_read::parts::node_at(s, p, i);
    }
    NodeList {
        nodes: nodes,
        count: n,
    }
}

pub fn load_placement(s: &[u8], p: Part) -> Placement
    requires { Lists s.now p }
    ensures { (view_placement result ≡ lists_at s.now p) × (result.count ≤ 16) × (listed_rows result ≡ true) }
{
    let n = p.len;
    let mut lists = [no_list(); 16];
    let mut at = p.at;
    for i in 0..n {
        let list = wire_read::parts::nodes_at(s, at);
        lists[i] = load_list(s, list);
        at = list.at + list.len * 8;
    }
    Placement {
        lists: lists,
        count: n,
    }
}

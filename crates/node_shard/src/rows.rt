// Internal: the role, and the rows of a primary's peers, one row or one loop a function.
ghost use Rattle.std.specs.Prelude.{◌≡◌, ◌≤◌, ◌-◌, take};
ghost use Rattle.spec.specs.Lists.{◌and◌, any};
ghost use Rattle.spec.specs.Node.Shards.{leads_at, on_node};
ghost use Rattle.spec.specs.Node.Shown.{is_node};

use spec::{DataNodeId, Replica, Role};

pub fn both(a: bool, b: bool) -> bool
    ensures { result ≡ (a and b) }
{
    if a { b } else { false }
}

pub fn leads(role: Role, epoch: u64) -> bool
    ensures { result ≡ leads_at role epoch }
{
    match role {
        Role::Backup => false,
        Role::Primary { epoch: e, end: _ } => e.0 == epoch,
    }
}

pub fn in_nodes(nodes: [DataNodeId; 8], count: usize, node: u64) -> bool
    requires { count ≤ 8 }
    ensures { result ≡ any (is_node node) (take count nodes) }
{
    for i in 0..count {
        let n = nodes[i];
        if n.0 == node {
            return true;
        }
    }
    false
}

pub fn is_holder(replicas: [Replica; 8], count: usize, node: u64) -> bool
    requires { count ≤ 8 }
    ensures { result ≡ any (on_node node) (take count replicas) }
{
    for i in 0..count {
        let n = replicas[i];
        if n.node.0 == node {
            return true;
        }
    }
    false
}

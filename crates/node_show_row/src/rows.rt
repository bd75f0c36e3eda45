// Internal: what a map says of one shard and of this node, one row or one loop a function.
ghost use Rattle.std.specs.Prelude.{◌≡◌, ◌≤◌};
ghost use Rattle.spec.specs.Lists.{any};
ghost use Rattle.spec.specs.Node.Shown.{listed_as};
ghost use Rattle.node_shard.specs.Shows.{leader_of, record_epoch};
ghost use Rattle.map_tables.specs.View.{view_holders, view_primary};
ghost use Rattle.node_show_row.specs.Rows.{dead_at};

use map_tables::{Holders, NodeRow};
use spec::{DataNodeId, Epoch, Role};

// A replica on this node, under its incarnation.
pub fn is_listed(h: Holders, id: u64, incarnation: u64) -> bool
    requires { h.count ≤ 8 }
    ensures { result ≡ any (listed_as id incarnation) (view_holders h) }
{
    let items = h.items;
    let count = h.count;
    for i in 0..count {
        let x = items[i];
        if x.node.0 == id && x.incarnation == incarnation {
            return true;
        }
    }
    false
}

// This node's own incarnation, marked dead.
pub fn is_dead(x: NodeRow, id: u64, incarnation: u64) -> bool
    ensures { result ≡ dead_at id incarnation x }
{
    let gone = x.incarnation == incarnation && !x.alive;
    x.node.0 == id && gone
}

pub fn leader_of(p: Option<DataNodeId>) -> Option<u64>
    ensures { leader_of result ≡ view_primary p }
{
    match p {
        None => None,
        Some(n) => Some(n.0),
    }
}

// The epoch of the record: what a worker is started with.
pub fn epoch_of(role: Role) -> Epoch
    ensures { result.0 ≡ record_epoch role }
{
    match role {
        Role::Backup => Epoch(0),
        Role::Primary { epoch, end: _ } => epoch,
    }
}

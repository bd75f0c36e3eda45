// What a map says of one shard and of the peers that this node tracks for it (node.rs, on_map). Internal.
#![tactic(auto)]

ghost use Rattle.std.specs.Prelude.{◌≡◌};
ghost use Rattle.spec.specs.Node.Shown.{new_row};
ghost use Rattle.node_shard.specs.Shows.{leader_is, rises};

use node_shard::rows::leads;
use spec::{DataNodeId, Offset, Peer, Role};

// Internal: whether the map lists this node as primary.
pub fn is_leader(l: Option<u64>, me: u64) -> bool
    ensures { result ≡ leader_is l me }
{
    match l {
        None => false,
        Some(n) => n == me,
    }
}

// Internal: what is known of a peer whose worker starts.
pub fn row_new(node: DataNodeId, member: bool) -> Peer
    ensures { result ≡ new_row node member }
{
    Peer {
        node: node,
        acked: Offset(0),
        aligned: false,
        behind: false,
        since: 0,
        proposing: false,
        member: member,
    }
}

// Internal: whether the map makes a new record.
pub fn rising_to(role: Role, own: u64, epoch: u64) -> bool
    ensures { result ≡ rises role own epoch }
{
    !leads(role, epoch) && own <= epoch
}

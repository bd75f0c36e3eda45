// The shards of a new collection.
ghost use Rattle.std.specs.Prelude.{◌≡◌, ◌≤◌, length};
ghost use mathlib.Core.List as lists;
ghost use Rattle.spec.specs.Map.Create.{replica_of, new_shard, with_shards};
ghost use Rattle.map_tables.specs.Counted.{Sized};
ghost use Rattle.map_tables.specs.Names.{view_name};
ghost use Rattle.map_tables.specs.View.{view_holders, view_list, view_placement, view_shard};
ghost use Rattle.image_map_put.specs.Few.{Few};
ghost use Rattle.image_map_put.specs.Rows.{read_as};
ghost use Rattle.image_map_edit.specs.Becomes.{ShardsBecome};

use crate::nodes::incarnation_of;
use image_map_add::shards::shard_put;
use map_create::{first_of, list_size, listed_synced};
use map_tables::holders_of::holder_added;
use map_tables::{Holders, Name, NodeList, Placement, ShardKey, ShardRow};
use spec::{DataNodeId, Epoch, Replica};

// The replicas of a new shard, in the order of its list, each under the incarnation that the map knows.
fn listed_holders(map: &[u8], list: NodeList) -> Holders
    requires { Few map.now }
    ensures { (view_holders result ≡ lists.map (replica_of (read_as map.now).nodes) (view_list list)) × (result.count ≤ 8) }
{
    let n = list_size(list);
    let none = Replica {
        node: DataNodeId(0),
        incarnation: 0,
    };
    let mut out = Holders {
        items: [none; 8],
        count: 0,
    };
    for j in 0..n {
        let node = list.nodes[j];
        let incarnation = incarnation_of(map, node);
        let more = holder_added(
            out,
            Replica {
                node: node,
                incarnation: incarnation,
            },
        );
        out = more;
    }
    out
}

// One shard of a new collection.
fn new_shard(map: &[u8], name: Name, number: u32, list: NodeList) -> ShardRow
    requires { Few map.now }
    ensures { (view_shard result ≡ new_shard (read_as map.now).nodes (view_name name) number (view_list list)) × (Sized result) }
{
    let replicas = listed_holders(map, list);
    let insync = listed_synced(list);
    let primary = first_of(list);
    ShardRow {
        key: ShardKey {
            collection: name,
            shard: number,
        },
        replicas: replicas,
        primary: primary,
        insync: insync,
        epoch: Epoch(1),
    }
}

// The shards of a placement put in, for which there is room.
pub fn shards_put(out: &mut [u8], name: Name, p: Placement)
    requires { Few out.old × (p.count ≤ 16) × (length (with_shards (read_as out.old).shards (read_as out.old).nodes (view_name name) 0 (view_placement p)) ≤ 64) }
    ensures { ShardsBecome out.old out.new (with_shards (read_as out.old).shards (read_as out.old).nodes (view_name name) 0 (view_placement p)) }
{
    let count = p.count;
    for i in 0..count {
        let list = p.lists[i];
        let row = new_shard(out, name, i as u32, list);
        shard_put(out, row);
    }
}

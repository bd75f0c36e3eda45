// Internal: the loads that are left without one of the nodes.
ghost use Rattle.std.specs.Prelude.{◌≤◌};
ghost use Rattle.image_map_losses.specs.Left.{Left};

use map_place::Loads;
use spec::DataNodeId;

// Internal: without the node.
pub fn loads_without(l: Loads, node: DataNodeId) -> Loads
    requires { l.count ≤ 32 }
    ensures { Left l node.0 result }
{
    let count = l.count;
    let mut ids = l.ids;
    let mut counts = l.counts;
    let mut n: usize = 0;
    for i in 0..count {
        let id = l.ids[i];
        let load = l.counts[i];
        if id == node.0 {
            continue;
        }
        ids[n] = id;
        counts[n] = load;
        n += 1;
    }
    Loads {
        ids: ids,
        counts: counts,
        count: n,
    }
}

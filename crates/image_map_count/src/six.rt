// Internal: the six counts of a request whose total is within 64 bits.
ghost use Rattle.std.specs.Prelude.{◌≡◌, ◌≤◌, length};
ghost use Rattle.spec.specs.Limits.{max_u64};
ghost use Rattle.map_tables.specs.Names.{view_name};
ghost use Rattle.map_tables.specs.View.{view_spec, view_map};
ghost use Rattle.image_map.specs.Image.{map_at};
ghost use Rattle.spec_count.specs.Counts.{Six};
ghost use Rattle.spec_count.specs.Closed.{geometric, total_of, fitting_of, closed_six};
ghost use Rattle.image_map_count.specs.Read.{view_ids, view_six, counts, Asked};

use crate::IdSet;
use crate::sums::geometric;
use crate::tests::{alive_among, is_taken, room_for};
use map_create::zero_in;
use map_tables::{Name, Spec};

fn six(accepted: u64, two: u64, three: u64, four: u64, five: u64, full: u64) -> [u64; 6]
    ensures { view_six result ≡ counts accepted two three four five full }
{
    let all = [accepted, two, three, four, five, full];
    all
}

// How many placements of these lists have as many as there are shards, each with a node and no more than the replication, over so many ids.
fn fitting(ids: u64, shards: u32, replication: u32, lists: u32, nodes: u32) -> u64
    requires { (shards ≤ lists) × (geometric ids nodes ≤ max_u64) × (total_of ids lists nodes ≤ max_u64) }
    ensures { result ≡ fitting_of shards replication ids lists nodes }
{
    let each = geometric(ids, nodes.min(replication));
    let all = geometric(each.sum - 1, shards);
    all.last
}

// 2, 3, 4, 5, 23, as far as Create gets.
pub fn six_of(
    map: &[u8],
    name: Name,
    spec: Spec,
    ids: IdSet,
    lists: u32,
    nodes: u32,
    total: u64,
) -> [u64; 6]
    requires { Asked map.now ids lists nodes total }
    ensures { view_six result ≡ closed_six (view_map (map_at map.now)) (view_name name) (view_spec spec) (view_ids ids) lists nodes }
{
    if is_taken(map, name) {
        return six(0, total, 0, 0, 0, 0);
    }
    if zero_in(spec) {
        return six(0, 0, total, 0, 0, 0);
    }
    let shards = spec.shards;
    if lists < shards {
        return six(0, 0, 0, total, 0, 0);
    }
    let given = ids.count as u64;
    let alive = alive_among(map, ids);
    let fit = fitting(given, shards, spec.replication, lists, nodes);
    let live = fitting(alive, shards, spec.replication, lists, nodes);
    if room_for(map, name, shards) {
        return six(live, 0, 0, total - fit, fit - live, 0);
    }
    six(0, 0, 0, total - fit, fit - live, live)
}

// How many placements pass, as a host asks for it (paper 02, 2.14): the map is a byte image that is only read (docs/IMAGES.md), the ids are 8 bytes
// each, and the six counts stand in one lent buffer. 21, 24, 36, 35, and 23 last, where the buffer is too short; a refused call leaves every byte.
// What an answer says stands in specs/Calls.antt.
#![tactic(auto)]

ghost use Rattle.calls_count.specs.Calls.{spec_given, Tallies};

use crate::answer::answer_counts;
use crate::ids::load_ids;
use calls_parts::named::key_named;
use image_map_check::lent::is_lent;
use map_tables::Spec;
use spec::Metric;
use wire_write::fit::text_fits;

mod answer;
mod ids;

// 0: 48 bytes in `counts`: accepted, 2, 3, 4, 5, 23, u64 each.
pub fn count_placements(
    map: &[u8],
    name: &[u8],
    dimension: u32,
    shards: u32,
    replication: u32,
    ids: &[u8],
    lists: u32,
    nodes: u32,
    counts: &mut [u8],
) -> u32
    ensures { Tallies map.now name.now (spec_given dimension shards replication) ids.now lists nodes
        counts.old counts.new result }
{
    if !text_fits(name, 32) {
        return 21;
    }
    if ids.len() % 8 != 0 {
        return 21;
    }
    if !is_lent(map) {
        return 24;
    }
    let key = key_named(name, 0);
    let set = load_ids(ids);
    let spec = Spec {
        dimension: dimension,
        metric: Metric::Euclidean,
        shards: shards,
        replication: replication,
    };
    let counted = image_map_count::count_placements(map, key.collection, spec, set, lists, nodes);
    answer_counts(counts, counted)
}

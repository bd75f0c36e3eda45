// place and replacement as a host asks them, over a map's image (docs/IMAGES.md; paper 01, 'Place' and 'Who is turned down'): the map is tested and
// its replicas are counted in the bytes, which are only read. What an answer says stands in calls_map, specs/Places.antt.
#![tactic(auto)]

ghost use Rattle.std.specs.Prelude.{◌≡◌, true};
ghost use Rattle.map_check.specs.Lent.{well_formed_lent};
ghost use Rattle.image_map.specs.Image.{map_at};
ghost use Rattle.calls_map.specs.Places.{Places, Replaces};
ghost use Rattle.map_place.specs.Answers.{replaced_of, replacement_lent};
ghost use Rattle.image_map_loads.specs.Loads.{Used};

use calls_map::lists::answer_lists;
use calls_map::replaced::answer_node;
use calls_parts::named::key_named;
use image_map_check::formed::is_formed;
use image_map_check::layout::{SHARD, SHARDS, SHARDS_USED};
use image_map_check::lent::is_lent;
use image_map_check::place::shard_place;
use image_map_loads::lightest::lightest_beside;
use image_map_loads::live::live_loads;
use image_map_loads::replicas::{HELD, REPLICAS};
use map_place::Replaced;
use map_place::placed::place_on;
use map_tables::{ShardKey, Spec};
use spec::Metric;
use wire_write::fit::text_fits;

// Where the replicas of new shards go. 0: `shards` lists of `replication` nodes stand in `lists`, 8 bytes for each node, a list behind the
// other; 1 none; 23, 24.
pub fn place(map: &[u8], shards: u32, replication: u32, lists: &mut [u8]) -> u32
    ensures { Places map.now shards replication lists.old lists.new result }
{
    if !is_lent(map) {
        return 24;
    }
    if !is_formed(map) {
        return 24;
    }
    let loads = live_loads(map);
    let spec = Spec {
        dimension: 0,
        metric: Metric::Euclidean,
        shards: shards,
        replication: replication,
    };
    let placed = place_on(loads, spec);
    answer_lists(lists, placed)
}

// The lightest live node that does not hold the shard; none if the map lacks the shard or such a node.
fn replacement_of(map: &[u8], key: ShardKey) -> Replaced
    requires { (Used map.now) × (well_formed_lent (map_at map.now) ≡ true) }
    ensures { replaced_of result ≡ replacement_lent (map_at map.now) key }
{
    let count = num::get8(map, SHARDS_USED) as usize;
    let at = shard_place(map, count, key);
    if count <= at {
        return Ok(None);
    }
    let row = SHARDS + SHARD * at;
    let held = num::get8(map, row + HELD) as usize;
    let best = lightest_beside(map, row + REPLICAS, held);
    let Some(l) = best else {
        return Ok(None);
    };
    let id = l.node;
    Ok(Some(id))
}

// Which node takes a replica of a shard next. 0: its id stands in the first 8 bytes of `answer`; 1 none; 21 the name, 23, 24.
pub fn replacement(map: &[u8], name: &[u8], shard: u32, answer: &mut [u8]) -> u32
    ensures { Replaces map.now name.now shard answer.old answer.new result }
{
    if !text_fits(name, 32) {
        return 21;
    }
    if !is_lent(map) {
        return 24;
    }
    let key = key_named(name, shard);
    if !is_formed(map) {
        return 24;
    }
    let found = replacement_of(map, key);
    answer_node(answer, found)
}

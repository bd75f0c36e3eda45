// The answer to a change of one shard, over the row that it names.
ghost use Rattle.std.specs.Prelude.{◌≡◌};
ghost use Rattle.spec.specs.Map.Apply.{change_answer, shard_at};
ghost use Rattle.map_tables.specs.Counted.{ShardsCounted};
ghost use Rattle.map_tables.specs.Names.{view_key};
ghost use Rattle.map_tables.specs.View.{view_shards, answer_of, change_of};
ghost use Rattle.image_map.specs.Image.{shards_at};
ghost use Rattle.image_map_put.specs.Few.{Few};
ghost use Rattle.calls_decide.specs.Decides.{Stands};

use image_map_check::layout::{SHARD, SHARDS, SHARDS_USED};
use image_map_check::place::shard_place;
use image_map_row::shards::shard_at;
use map_shard::of_shard::decide_change;
use map_tables::answers::rejected;
use map_tables::{Change, Rejection, ShardKey, Verdict};
use spec::Epoch;

// 9, 10, then the change's own; the key's shard is at place `hit`, if there is one.
fn answer_at(
    map: &[u8],
    count: usize,
    hit: usize,
    key: ShardKey,
    epoch: Epoch,
    c: Change,
) -> Verdict
    requires { Stands map.now count hit key }
    ensures { answer_of result ≡ change_answer (view_key key) epoch.0 (change_of c) (shard_at (view_shards (shards_at map.now)) (view_key key)) }
{
    if count <= hit {
        return rejected(Rejection::NoShard, key);
    }
    let row = shard_at(map, SHARDS + SHARD * hit);
    let own = row.epoch;
    if own.0 != epoch.0 {
        return rejected(Rejection::OtherEpoch(own, epoch), key);
    }
    decide_change(row, c)
}

// The same of the row that the key names.
pub fn change_answer(map: &[u8], key: ShardKey, epoch: Epoch, c: Change) -> Verdict
    requires { Few map.now × ShardsCounted (shards_at map.now) }
    ensures { answer_of result ≡ change_answer (view_key key) epoch.0 (change_of c) (shard_at (view_shards (shards_at map.now)) (view_key key)) }
{
    let count = num::get8(map, SHARDS_USED) as usize;
    let hit = shard_place(map, count, key);
    answer_at(map, count, hit, key, epoch, c)
}

// The commands that change one shard.
ghost use Rattle.std.specs.Prelude.{◌≡◌, ◌+◌, ◌*◌, ◌<◌};
ghost use Rattle.spec.specs.Map.Change.{changed};
ghost use Rattle.map_tables.specs.Counted.{Sized};
ghost use Rattle.map_tables.specs.View.{view_shard, change_of};
ghost use Rattle.map_tables.specs.declared.Command.TheVariants.{OfShard};
ghost use Rattle.map_shard.specs.Taken.{Takes};
ghost use Rattle.image_map_row.specs.Rows as rows;
ghost use Rattle.image_map_put.specs.Few.{Few};
ghost use Rattle.calls_decide.specs.Decides.{Fresh};
ghost use Rattle.calls_apply.specs.Settles.{Accepted, Taken};

use image_map_check::layout::{SHARD, SHARDS, SHARDS_USED};
use image_map_check::place::shard_place;
use image_map_edit::shards::shard_set;
use image_map_row::shards::shard_at;
use map_shard::of_shard::changed_row;
use map_tables::{Change, Request, ShardRow};
use spec::Epoch;

// The row at a place, after a change that it takes.
fn changed_at(map: &[u8], hit: usize, c: Change) -> ShardRow
    requires { Few map.now × (hit < 64) × Takes (rows.shard_at map.now (4008 + 272 * hit)) c }
    ensures { (view_shard result ≡ changed (view_shard (rows.shard_at map.now (4008 + 272 * hit))) (change_of c)) × (Sized result) }
{
    let row = shard_at(map, SHARDS + SHARD * hit);
    changed_row(row, c)
}

// AddReplica, Remove, Promote, Shrink, Expand.
pub fn change_shard(map: &mut [u8], r: Request, change: Change, epoch: Epoch)
    requires { Fresh map.old r × Accepted map.old r × (r.command ≡ OfShard change epoch) }
    ensures { Taken map.old map.new r }
{
    let count = num::get8(map, SHARDS_USED) as usize;
    let hit = shard_place(map, count, r.key);
    let new = changed_at(map, hit, change);
    shard_set(map, hit, new);
}

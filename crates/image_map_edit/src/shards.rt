// The shards of a map, changed where they stand.
ghost use Rattle.std.specs.Prelude.{◌≡◌, ◌<◌, set};
ghost use Rattle.spec.specs.Layout.Format.{number_at};
ghost use Rattle.map_tables.specs.Counted.{Sized};
ghost use Rattle.map_tables.specs.View.{view_shard};
ghost use Rattle.image_map_put.specs.Few.{Few};
ghost use Rattle.image_map_put.specs.Rows.{read_as};
ghost use Rattle.image_map_edit.specs.Becomes.{ShardsBecome};

use image_map_check::layout::{SHARD, SHARDS};
use image_map_row::shards::put_shard;
use map_tables::ShardRow;

// A row over the one at a place.
pub fn shard_set(out: &mut [u8], place: usize, row: ShardRow)
    requires { Few out.old × (place < number_at 8 out.old 24) × Sized row }
    ensures { ShardsBecome out.old out.new (set (read_as out.old).shards place (view_shard row)) }
{
    put_shard(out, SHARDS + SHARD * place, row);
}

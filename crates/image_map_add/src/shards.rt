// A shard put where it belongs.
ghost use Rattle.std.specs.Prelude.{◌≡◌, not, ◌+◌, ◌*◌, ◌≤◌, ltb, length};
ghost use Rattle.spec.specs.Keys.{key_below};
ghost use Rattle.spec.specs.Lists.{◌and◌, put};
ghost use Rattle.spec.specs.Map.Create.{shard_below};
ghost use Rattle.map_tables.specs.Counted.{Sized};
ghost use Rattle.map_tables.specs.Names.{view_key};
ghost use Rattle.map_tables.specs.View.{view_shard};
ghost use Rattle.image_map_row.specs.Rows.{shard_at};
ghost use Rattle.image_map_check.specs.Places.{ShardsCount};
ghost use Rattle.image_map_put.specs.Few.{Few};
ghost use Rattle.image_map_put.specs.Rows.{read_as};
ghost use Rattle.image_map_edit.specs.Becomes.{ShardsBecome};

use image_map_check::layout::{SHARD, SHARD_WORDS, SHARDS, SHARDS_USED};
use image_map_check::room::shard_room;
use image_map_row::shards::put_shard;
use image_move::move_up;
use image_parts::keys::key_at;
use map_tables::names::key_below;
use map_tables::{ShardKey, ShardRow};

// Whether the place is in use, and not by a later key.
fn is_level(s: &[u8], count: usize, place: usize, key: ShardKey) -> bool
    requires { ShardsCount s.now count }
    ensures { result ≡ (ltb place count and not (key_below (view_key key) (view_shard (shard_at s.now (4008 + 272 * place))).key)) }
{
    if count <= place {
        return false;
    }
    let own = key_at(s, SHARDS + SHARD * place);
    if key_below(key, own) {
        return false;
    }
    true
}

// Over the shard of its key, or before those of the keys above it.
pub fn shard_put(out: &mut [u8], row: ShardRow)
    requires { Few out.old × (length (put shard_below (view_shard row) (read_as out.old).shards) ≤ 64) × Sized row }
    ensures { ShardsBecome out.old out.new (put shard_below (view_shard row) (read_as out.old).shards) }
{
    let count = num::get8(out, SHARDS_USED) as usize;
    let place = shard_room(out, count, row.key);
    let at = SHARDS + SHARD * place;
    if is_level(out, count, place, row.key) {
        put_shard(out, at, row);
        return;
    }
    move_up(
        out,
        at,
        SHARDS + SHARD * (place + 1),
        SHARD_WORDS * (count - place),
    );
    put_shard(out, at, row);
    num::put8(out, SHARDS_USED, (count + 1) as u64);
}

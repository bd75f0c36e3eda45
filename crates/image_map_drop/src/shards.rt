// The shards of a collection taken out of the table.
ghost use Rattle.std.specs.Prelude.{◌≡◌, not};
ghost use Rattle.spec.specs.Keys.{same_name};
ghost use Rattle.spec.specs.Lists.{filter};
ghost use Rattle.map_tables.specs.Names.{view_name};
ghost use Rattle.image_map_put.specs.Few.{Few};
ghost use Rattle.image_map_put.specs.Rows.{read_as};
ghost use Rattle.image_map_edit.specs.Becomes.{ShardsBecome};

use crate::rows::rows_without;
use image_map_check::layout::{SHARD_WORDS, SHARDS, SHARDS_USED};
use map_tables::Name;

// The shards but those of that collection: the key of a row begins with the collection's name.
pub fn shards_without(out: &mut [u8], name: Name)
    requires { Few out.old }
    ensures { ShardsBecome out.old out.new (filter (λ x. not (same_name x.key.collection (view_name name))) (read_as out.old).shards) }
{
    let count = num::get8(out, SHARDS_USED) as usize;
    let kept = rows_without(out, SHARDS, SHARD_WORDS, count, name);
    num::put8(out, SHARDS_USED, kept as u64);
}

// How many rows the shards of a new collection take: a map may have shards of a collection that it does not have.
ghost use Rattle.std.specs.Prelude.{◌≡◌, ◌≤◌};
ghost use Rattle.map_tables.specs.Names.{view_name};
ghost use Rattle.image_map_put.specs.Few.{Few};
ghost use Rattle.image_map_put.specs.Rows.{read_as};
ghost use Rattle.image_map_create.specs.Absent.{absent};

use image_map_check::layout::SHARDS_USED;
use image_map_check::place::shard_place;
use map_tables::{Name, ShardKey};

// How many of the collection's first n keys no shard has.
pub fn absent_keys(map: &[u8], name: Name, n: usize) -> usize
    requires { Few map.now × (n ≤ 16) }
    ensures { (result ≡ absent (read_as map.now).shards (view_name name) 0 n) × (result ≤ 16) }
{
    let used = num::get8(map, SHARDS_USED) as usize;
    let mut free: usize = 0;
    for i in 0..n {
        let key = ShardKey {
            collection: name,
            shard: i as u32,
        };
        if shard_place(map, used, key) < used {
            continue;
        }
        free += 1;
    }
    free
}

// Internal: a map that changes nothing of this node but the version that it knows.
ghost use Rattle.std.specs.Prelude.{◌≡◌, true, ◌≤◌, length};
ghost use Rattle.node_header.specs.Formed.{formed_node};
ghost use Rattle.map_tables.specs.Counted.{TablesCounted};
ghost use Rattle.image_map.specs.Image.{map_at};
ghost use Rattle.image_header.specs.Image.{node_at};
ghost use Rattle.image_header_check.specs.Rows.{Counts};
ghost use Rattle.image_show.specs.Quiet.{QuietMap};

use crate::row::row_quiet;
use image_header_check::place::place_at;
use image_layout::header::{ID, INCARNATION, ROW, ROWS};
use image_map_check::layout::{SHARD, SHARDS, SHARDS_USED};
use image_map_row::shards::shard_at;
use node_show_row::rows::is_listed;

// The shards that list this node are those that are held, one after another, and each stays as it is.
pub fn is_quiet(header: &[u8], count: usize, map: &[u8]) -> bool
    requires { Counts header.now count × (formed_node (node_at header.now) ≡ true) × (26536 ≤ length map.now) × TablesCounted (map_at map.now) }
    ensures { result ≡ true → QuietMap (node_at header.now) (map_at map.now) }
{
    let total = num::get8(map, SHARDS_USED) as usize;
    let me = num::get8(header, ID);
    let own = num::get8(header, INCARNATION);
    let mut j: usize = 0;
    for i in 0..total {
        let row = shard_at(map, SHARDS + SHARD * i);
        let list = row.replicas;
        if is_listed(list, me, own) {
            if count <= j {
                return false;
            }
            let key = row.key;
            if place_at(header, count, key) != j {
                return false;
            }
            if !row_quiet(header, ROWS + ROW * j, me, row) {
                return false;
            }
            j += 1;
        }
    }
    j == count
}

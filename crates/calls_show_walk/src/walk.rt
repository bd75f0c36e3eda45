// Internal: every shard that a map leaves the node with, and the workers to start (node.rs, on_map).
ghost use Rattle.std.specs.Prelude.{◌≡◌, true, ◌≤◌, length};
ghost use Rattle.node_header.specs.Formed.{formed_node};
ghost use Rattle.map_tables.specs.Counted.{TablesCounted};
ghost use Rattle.image_map.specs.Image.{map_at};
ghost use Rattle.image_header.specs.Image.{node_at};
ghost use Rattle.image_header_check.specs.Rows.{Counts};
ghost use Rattle.calls_show_walk.specs.Rows.{Made};

use crate::RowsMade;
use crate::row::take_row;
use image_layout::header::{ID, INCARNATION};
use image_map_check::layout::{SHARD, SHARDS, SHARDS_USED};
use image_map_row::shards::shard_at;
use node_show_row::rows::is_listed;

// One that does not list this node under its incarnation is not held (any more). No lent byte is written. Err: how far it came where a ninth
// shard would be held, or a 33rd worker needed.
pub fn make_rows(
    header: &[u8],
    held: usize,
    map: &[u8],
    rows: &mut [u8],
    workers: &mut [u8],
) -> Result<RowsMade, RowsMade>
    requires { Counts header.now held × (formed_node (node_at header.now) ≡ true) × (26536 ≤ length map.now) × TablesCounted (map_at map.now)
        × (10240 ≤ length rows.old) × (13824 ≤ length workers.old) }
    ensures { Made (node_at header.now) (map_at map.now) rows.new workers.new result }
{
    let total = num::get8(map, SHARDS_USED) as usize;
    let me = num::get8(header, ID);
    let own = num::get8(header, INCARNATION);
    let mut count: usize = 0;
    let mut many: usize = 0;
    for i in 0..total {
        let row = shard_at(map, SHARDS + SHARD * i);
        let list = row.replicas;
        if !is_listed(list, me, own) {
            continue;
        }
        let Ok(taken) = take_row(header, held, map, row, rows, count, workers, many) else {
            return Err(RowsMade {
                count,
                workers: many,
            });
        };
        let Some(after) = taken else {
            continue;
        };
        many = after;
        count += 1;
    }
    Ok(RowsMade {
        count,
        workers: many,
    })
}

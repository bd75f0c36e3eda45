// A shard that begins, put into a node's header where it stands (paper 01, 'Who is turned down', NewEpoch; node.rs, or_insert_with). Internal:
// the header has been tested.
#![tactic(auto)]

ghost use Rattle.std.specs.Prelude.{◌<◌};
ghost use Rattle.image_header.specs.Image.{node_at};
ghost use Rattle.image_header_check.specs.Rows.{Counts};
ghost use Rattle.image_header_begin.specs.Begun.{Begun};

use crate::places::{free_slot, key_place};
use crate::rows::{open_row, set_begun};
use image_header_set::back::put_back;
use image_layout::header::{ROW, ROWS, SHARDS};
use map_tables::ShardKey;
use spec::{Epoch, Metric};

pub mod places;
pub mod rows;

// By its key, in the lowest free slot, under the epoch, with no entries. 23 for a ninth is the caller's.
pub fn begin(header: &mut [u8], key: ShardKey, epoch: Epoch, metric: Metric)
    requires { Counts header.old (node_at header.old).count × ((node_at header.old).count < 8) }
    ensures { Begun header.old header.new key epoch.0 metric }
{
    let count = num::get8(header, SHARDS) as usize;
    let slot = free_slot(header, count);
    let at = key_place(header, count, key);
    open_row(header, at, count);
    set_begun(header, ROWS + ROW * at, key, slot as u64, epoch.0, metric);
    put_back(header, count + 1);
}

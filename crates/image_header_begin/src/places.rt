// The slot and the place of a shard that begins.
ghost use Rattle.std.specs.Prelude.{◌≡◌, take};
ghost use Rattle.spec.specs.Lists.{lead};
ghost use Rattle.map_tables.specs.Names.{view_key};
ghost use Rattle.node_header.specs.Grow.{lowest_free, below_key};
ghost use Rattle.image_header.specs.Image.{node_at};
ghost use Rattle.image_header_check.specs.Rows.{Counts};

use image_header_check::formed::slot_after;
use image_parts::keys::key_at;
use map_tables::ShardKey;
use map_tables::names::key_below;

// As many slots as there are stores.
const SLOTS: usize = 8;

// The lowest slot that no shard has, or 8.
pub fn free_slot(s: &[u8], count: usize) -> usize
    requires { Counts s.now count }
    ensures { result ≡ lowest_free (take count (node_at s.now).held) }
{
    for slot in 0..SLOTS {
        if !slot_after(s, 0, count, slot as u64) {
            return slot;
        }
    }
    SLOTS
}

// Past all shards whose keys stand below.
pub fn key_place(s: &[u8], count: usize, key: ShardKey) -> usize
    requires { Counts s.now count }
    ensures { result ≡ lead (below_key (view_key key)) (take count (node_at s.now).held) }
{
    for i in 0..count {
        let k = key_at(s, 48 + 1280 * i);
        if !key_below(k, key) {
            return i;
        }
    }
    count
}

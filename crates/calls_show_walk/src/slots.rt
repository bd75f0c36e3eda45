// Internal: the slots of the shards that begin.
ghost use Rattle.std.specs.Prelude.{◌≡◌, true, take};
ghost use Rattle.spec.specs.Lists.{every};
ghost use Rattle.image_header.specs.Image.{node_at};
ghost use Rattle.image_header_check.specs.Rows.{Counts};
ghost use Rattle.node_show_slots.specs.Slots.{open_fits};
ghost use Rattle.calls_show_walk.specs.Slots.{SlotsGiven};

use image_header_begin::places::free_slot;
use image_layout::header::ROW;

// Where a header has its rows, and a row its slot.
const SLOTS: usize = 96;

// Each shard that begins gets the lowest slot that no shard held after has: a freed place is used again.
pub fn give_slots(out: &mut [u8], count: usize)
    requires { Counts out.old count × (every open_fits (take count (node_at out.old).held) ≡ true) }
    ensures { SlotsGiven out.old out.new count }
{
    for i in 0..count {
        if 8 <= num::get8(out, SLOTS + ROW * i) {
            let slot = free_slot(out, count);
            num::put8(out, SLOTS + ROW * i, slot as u64);
        }
    }
}

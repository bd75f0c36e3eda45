// Rows of one name taken out of a table, of any table whose rows begin with a name.
ghost use Rattle.std.specs.Prelude.{◌+◌, ◌*◌, ◌≤◌, length};
ghost use Rattle.image_map_drop.specs.Stay.{Stay};

use image_move::move_down;
use image_parts::keys::name_at;
use map_tables::Name;
use map_tables::names::same_name;

// How many of `count` rows of `words` words of 8 bytes stay: each of another name moves down over those that go.
pub fn rows_without(out: &mut [u8], base: usize, words: usize, count: usize, name: Name) -> usize
    requires { (5 ≤ words) × (words ≤ 34) × (base + 8 * words * count ≤ 26536) × (26536 ≤ length out.old) }
    ensures { Stay out.old out.new base (8 * words) count name result }
{
    let row = 8 * words;
    let mut kept: usize = 0;
    for i in 0..count {
        let at = base + row * i;
        let own = name_at(out, at);
        if same_name(own, name) {
            continue;
        }
        move_down(out, at, base + row * kept, words);
        kept += 1;
    }
    kept
}

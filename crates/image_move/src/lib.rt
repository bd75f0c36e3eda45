// Words of 8 bytes moved within an image, where the two places may overlap: up from the back, down from the front. Internal.
#![tactic(auto)]

ghost use Rattle.std.specs.Prelude.{◌≡◌, ◌+◌, ◌*◌, ◌≤◌, length};
ghost use Rattle.image_move.specs.Moved.{Moved};

pub fn move_up(out: &mut [u8], from: usize, to: usize, words: usize)
    requires { (from ≤ to) × (to + 8 * words ≤ length out.old) }
    ensures { Moved out.old out.new from to (8 * words) }
{
    for i in (0..words).rev() {
        let word = num::get8(out, from + 8 * i);
        num::put8(out, to + 8 * i, word);
    }
}

pub fn move_down(out: &mut [u8], from: usize, to: usize, words: usize)
    requires { (to ≤ from) × (from + 8 * words ≤ length out.old) }
    ensures { Moved out.old out.new from to (8 * words) }
{
    for i in 0..words {
        let word = num::get8(out, from + 8 * i);
        num::put8(out, to + 8 * i, word);
    }
}

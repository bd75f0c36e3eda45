// A request applied with its text (paper 02, 2.1), and its line.
ghost use Rattle.thm_map_never_malformed.specs.Calls.{Intact};

use calls_apply_words::apply_words;
use image_map_check::layout::VERSION;
use test_lines::line_of;
use test_lines::parts::first;
use test_lines::print::put;

// Behind the line of a rejected one its text; any other has none.
fn told(text: &[u8; 108], answer: &[u8; 8]) {
    let n = num::get8(answer, 0) as usize;
    if n == 0 {
        return;
    }
    io::write_all(1, b" ");
    io::write_all(1, first(text, n));
}

// No text is longer than 108 bytes.
pub fn says(map: &mut [u8], index: u64, request: &[u8])
    requires { Intact map.old }
    ensures { Intact map.new }
{
    let mut text = [0u8; 108];
    let mut answer = [0u8; 8];
    let number = apply_words(map, request, &mut text, &mut answer);
    let version = num::get8(map, VERSION);
    put(line_of(index, number, version));
    told(&text, &answer);
    io::write_all(1, b"\n");
}

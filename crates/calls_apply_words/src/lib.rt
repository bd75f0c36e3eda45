// Apply in words as a host makes it (paper 02, 2.1): the map is a byte image that the host owns (docs/IMAGES.md), and it lends a buffer for
// the text and 8 bytes for its length. What an answer says stands in specs/Calls.antt.
#![tactic(auto)]

ghost use Rattle.std.specs.Prelude.{◌≤◌, length};
ghost use Rattle.calls_decide.specs.Decides.{Ready};
ghost use Rattle.calls_apply_words.specs.Calls.{AppliesInWordsTo, Tells};
ghost use Rattle.calls_apply_words.specs.Settled.{SettlesInWords};

use calls_apply::settled::carry_out;
use calls_decide::decided::decided;
use calls_map::numbers::verdict_number;
use calls_parts::answer::put_number;
use image_map_check::formed::is_formed;
use image_map_check::lent::is_lent;
use map_request::load::load;
use map_tables::Request;
use map_words::{Text, put_text, text_of};
use wire_read::Message;

// The text and its length, where there is room for the length; without it no byte changes.
fn tell(text: &mut [u8], answer: &mut [u8], words: Text) -> bool
    requires { (words.len ≤ 108) × (words.len ≤ length text.old) }
    ensures { Tells text.old text.new answer.old answer.new words result }
{
    if !put_number(answer, words.len as u64) {
        return false;
    }
    put_text(text, words);
    true
}

// A request on a map that passed its test. All is decided before a byte is written: the answer and its text, 27, then 23.
fn settle_in_words(map: &mut [u8], r: Request, text: &mut [u8], answer: &mut [u8]) -> u32
    requires { Ready map.old r }
    ensures { SettlesInWords map.old map.new r text.old text.new answer.old answer.new result }
{
    let d = decided(map, r);
    let verdict = d.verdict;
    let words = text_of(verdict);
    if text.len() < words.len {
        return 27;
    }
    let number = verdict_number(verdict);
    if 16 < number {
        return number;
    }
    if !tell(text, answer, words) {
        return 23;
    }
    carry_out(map, r, d)
}

// A request is applied to the map. 0 applied; 1 to 16 rejected; then 27 where the text is longer than `text`, which the map does not
// remember; then 23 where `answer` has no 8 bytes. 21, 23, 24 and 25 as apply answers them, whatever the buffers.
pub fn apply_words(map: &mut [u8], request: &[u8], text: &mut [u8], answer: &mut [u8]) -> u32
    ensures { AppliesInWordsTo map.old map.new request.now text.old text.new answer.old answer.new result }
{
    let message = wire_read::decode(request);
    let Message::Request(p) = message else {
        return 21;
    };
    if !is_lent(map) {
        return 24;
    }
    if !is_formed(map) {
        return 24;
    }
    let r = load(request, p);
    settle_in_words(map, r, text, answer)
}

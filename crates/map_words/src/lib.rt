// The text of an answer (paper 02, 2.1; the strings of the source's state.rs): written into 108 bytes, which hold any. What each text is
// stands in crate spec_words.
#![tactic(auto)]

ghost use Rattle.std.specs.Prelude.{◌≡◌, ◌≤◌, length, take};
ghost use Rattle.std.proofs.lemmas.List.Edits.{sets};
ghost use Rattle.spec_words.specs.Words.{text_of};
ghost use Rattle.map_tables.specs.View.{answer_of};
ghost use Rattle.map_words.specs.Written.{Puts, Says};

use crate::rejections::put_rejection;
use map_tables::{Outcome, Verdict};
use wire_put::put::put_bytes;

mod parts;
mod rejections;

// The text of an answer; bytes past `len` are free.
#[derive(Drop)]
pub struct Text {
    pub bytes: [u8; 108],
    pub len: usize,
}

// The digits of a number: the bytes from `from` on.
#[derive(Drop)]
pub struct Digits {
    pub bytes: [u8; 20],
    pub from: usize,
}

// A rejection has a text; an applied command and a refused one have none.
fn put_answer(out: &mut [u8], v: Verdict) -> usize
    requires { 108 ≤ length out.old }
    ensures { Puts out.old out.new 0 (text_of (answer_of v)) result }
{
    let a = v.answer;
    let key = v.key;
    match a {
        Ok(o) => match o {
            Outcome::Applied => 0,
            Outcome::Rejected(r) => put_rejection(out, r, key),
        },
        Err(_) => 0,
    }
}

// The text of an answer.
pub fn text_of(v: Verdict) -> Text
    ensures { Says v result }
{
    let mut bytes = [0u8; 108];
    let len = put_answer(&mut bytes, v);
    Text {
        bytes: bytes,
        len: len,
    }
}

// A text from a buffer's start on. Internal: a caller shows that there is room.
pub fn put_text(out: &mut [u8], t: Text)
    requires { (t.len ≤ 108) × (t.len ≤ length out.old) }
    ensures { out.new ≡ sets out.old 0 (take t.len t.bytes) }
{
    let bytes = t.bytes;
    let n = t.len;
    put_bytes(out, 0, &bytes[..n]);
}

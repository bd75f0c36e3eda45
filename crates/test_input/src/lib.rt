// What programs `applymap` (paper 01) and `loadsheet` (paper 02, 2.4) read alike: 01 requests that follow one another on standard input, each taken
// by its own length and applied, until one does not decode or the input ends. An input of any length is read as it goes: what is left of the bytes
// at hand moves to the front of the buffer, and more is read behind it. The map is a byte image (docs/IMAGES.md), changed in place.
#![tactic(auto)]

use test_lines::Line;

pub mod drain;
pub mod input;
pub mod start;
mod step;

// No request is longer: a Create with 16 lists of 8 nodes (proved in crate spec_laws, proofs/Map/Stream.antt). Where as many
// bytes are left and none was found, the next one does not decode.
pub const LONGEST: usize = 1113;

// The lines of the requests that stood in the bytes at hand; places past `count` are free.
#[derive(Drop)]
pub struct Said {
    pub items: [Line; 328],
    pub count: usize,
}

// Those lines, and the place after the last of the requests.
#[derive(Drop)]
pub struct Drained {
    pub at: usize,
    pub said: Said,
}

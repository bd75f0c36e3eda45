// Replays the oracle's stored streams of requests: records of a length u32 and as many bytes on standard input. Each
// starts from an empty map; its requests are applied as program `applymap` applies them (paper 01), with a line for each,
// behind that of a rejected one its text (paper 02, 2.1), and then the whole map is printed, which tells more than its
// version. stdin is oracle/stored/streams/all.in, stdout all.out: what the oracle printed of the Rust's map, in the Rust's
// own words. The map is a byte image, and the call crate calls_apply_words'; this program shows the rows.
#![tactic(auto)]

ghost use Rattle.std.specs.Prelude.{◌≤◌, length};
ghost use Rattle.image_map_put.specs.Few.{Few};

use drain::drain;
use image_map_check::layout::VERSION;
use nodes::{collections, nodes};
use sessions::sessions;
use shards::shards;
use test_input::start::start;
use test_lines::words::number;

mod drain;
mod nodes;
mod says;
mod sessions;
mod shards;
mod words;

// Each table by rising key, as it stands in the map.
fn show(map: &[u8])
    requires { Few map.now }
{
    io::write_all(1, b"version");
    number(num::get8(map, VERSION));
    io::write_all(1, b"\n");
    nodes(map);
    collections(map);
    shards(map);
    sessions(map);
    io::write_all(1, b"end\n");
}

// The requests of a stream on an empty map, and that map.
fn replay(map: &mut [u8], s: &[u8])
    requires { 26536 ≤ length map.old }
{
    start(map);
    drain(map, s);
    show(map);
}

fn stream(s: &[u8]) {
    let mut map = [0u8; 26536];
    replay(&mut map, s);
}

// The length that the first four bytes spell.
fn length_of(head: &[u8]) -> usize {
    if head.len() < 4 {
        return 0;
    }
    num::get4(head, 0) as usize
}

// The bytes of a record, as many as the buffer takes, and what comes of them. False where the input ends before.
fn body(buf: &mut [u8]) -> bool {
    let n = io::read_full(0, buf);
    if n < buf.len() {
        return false;
    }
    stream(&buf[..n]);
    true
}

// The same of the first bytes of a larger buffer.
fn first(buf: &mut [u8], len: usize) -> bool {
    if buf.len() < len {
        return false;
    }
    body(&mut buf[..len])
}

// One record. False where no whole one is left, which ends the program.
fn one() -> bool {
    let mut head = [0u8; 4];
    let n = io::read_full(0, &mut head);
    if n < 4 {
        return false;
    }
    let len = length_of(&head);
    let mut buf = io::large_buffer();
    first(&mut buf, len)
}

// Nothing says that an input ends, so the records are counted.
fn main() {
    for _ in 0..1000000u64 {
        if !one() {
            return;
        }
    }
}

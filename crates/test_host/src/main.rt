// A host in Rattle: it calls the entry points as a host in C does, over the image of a map that it owns, with requests that
// crate wire_write writes. The requests, and so the lines, are those of paper 01's example of program `applymap`.
use host::maps::{catalogue_apply, catalogue_empty_map};
use num::get8;
use spec::DataNodeId;
use wire_write::request::{write_mark_dead, write_register};

// The index, the word, the reason, and the version that the image has now.
fn line(index: u64, said: u32, map: &[u8; 26536]) {
    io::print_decimal(1, index);
    if said == 0 {
        io::write_all(1, b" applied ");
    } else if said < 17 {
        io::write_all(1, b" rejected ");
    } else {
        io::write_all(1, b" refused ");
    }
    io::print_decimal(1, said as u64);
    io::write_all(1, b" ");
    io::print_decimal(1, get8(map, 0));
    io::write_all(1, b"\n");
}

// Node 1 comes up under incarnation 4. Each request has a buffer of its own length: it is written.
fn register(map: &mut [u8; 26536], index: u64, seq: u64) {
    let mut request = [0u8; 107];
    let _ = write_register(&mut request, index, 1, seq, DataNodeId(1), b"", 4);
    let said = catalogue_apply(map, &request);
    line(index, said, map);
}

// Node 1 is dead under incarnation 4.
fn mark_dead(map: &mut [u8; 26536], index: u64, seq: u64) {
    let mut request = [0u8; 42];
    let _ = write_mark_dead(&mut request, index, 1, seq, DataNodeId(1), 4);
    let said = catalogue_apply(map, &request);
    line(index, said, map);
}

fn main() {
    let mut map = [0u8; 26536];
    catalogue_empty_map(&mut map);
    register(&mut map, 5, 1);
    register(&mut map, 6, 2);
    mark_dead(&mut map, 7, 3);
}

// A map shown to a node, over the images of its header and of the map (paper 01, 'Map shown', 'Who is turned down'; node.rs, on_map).
ghost use Rattle.std.specs.Prelude.{◌≡◌, true, ◌≤◌, length};
ghost use Rattle.spec.specs.Layout.Format.{number_at};
ghost use Rattle.node_header.specs.Formed.{formed_node};
ghost use Rattle.image_header.specs.Image.{header_lent, node_at};
ghost use Rattle.image_header_check.specs.Rows.{Counts};
ghost use Rattle.image_header_set.specs.Version.{version_set};
ghost use Rattle.calls_header.specs.Fresh.{fresh_node};
ghost use Rattle.calls_header.specs.Shows.{Shows};
ghost use Rattle.calls_parts.specs.Refusals.{number_of};
ghost use Rattle.calls_show.specs.Shown.{MapFormed, Quietly, TakesAt, ShowsAt};

use crate::fresh::put_fresh;
use calls_parts::answer::put_number;
use calls_parts::refusal::Refusal;
use calls_show_walk::put::put_rows;
use calls_show_walk::walk::make_rows;
use image_header::is_lent;
use image_header_set::back::put_back;
use image_header_set::version::put_version;
use image_layout::header::{ID, INCARNATION, KNOWN, SHARDS};
use image_map_check::layout::{NODES_USED, VERSION};
use image_show::dead::dead_in;
use image_show::quiet::is_quiet;
use wire_put::put::put_bytes;

// Internal: an older map is ignored: the rows in use are in their one form, and no worker starts; 23 without room to say so.
fn ignore(header: &mut [u8], count: usize, answer: &mut [u8]) -> Result<(), Refusal>
    requires { Counts header.old count }
    ensures { Quietly header.old header.new answer.old answer.new (node_at header.old) (number_of result) }
{
    if !put_number(answer, 0) {
        return Err(Refusal::NoRoom);
    }
    put_back(header, count);
    Ok(())
}

// Internal: a node listed dead starts over; 23 without room to say so.
fn start_over(header: &mut [u8], fresh: u64, answer: &mut [u8]) -> Result<(), Refusal>
    requires { 10288 ≤ length header.old }
    ensures { Quietly header.old header.new answer.old answer.new
        (fresh_node (number_at 8 header.old 0) fresh) (number_of result) }
{
    let id = num::get8(header, ID);
    if !put_number(answer, 0) {
        return Err(Refusal::NoRoom);
    }
    put_fresh(header, id, fresh);
    Ok(())
}

// Internal: a map that changes nothing but the version that the node knows; 23 without room to say that no worker starts.
fn note(header: &mut [u8], count: usize, version: u64, answer: &mut [u8]) -> Result<(), Refusal>
    requires { Counts header.old count }
    ensures { Quietly header.old header.new answer.old answer.new (version_set (node_at header.old) version) (number_of result) }
{
    if !put_number(answer, 0) {
        return Err(Refusal::NoRoom);
    }
    put_version(header, count, version);
    Ok(())
}

// Internal: a map that changes what is held: the rows after and the workers to start are made first, in buffers of their own. 23 if a ninth shard
// would be held, or a 33rd worker needed, or an output is too short; nothing is written then.
fn change(
    header: &mut [u8],
    count: usize,
    map: &[u8],
    starts: &mut [u8],
    answer: &mut [u8],
) -> Result<(), Refusal>
    requires { Counts header.old count × (formed_node (node_at header.old) ≡ true) × MapFormed map.now }
    ensures { TakesAt header.old header.new map.now starts.old starts.new
        answer.old answer.new (number_of result) }
{
    let mut rows = [0u8; 10240];
    let mut workers = [0u8; 13824];
    let Ok(made) = make_rows(header, count, map, &mut rows, &mut workers) else {
        return Err(Refusal::NoRoom);
    };
    let many = made.workers;
    let size = 54 * many;
    if starts.len() < size {
        return Err(Refusal::NoRoom);
    }
    if !put_number(answer, many as u64) {
        return Err(Refusal::NoRoom);
    }
    put_bytes(starts, 0, &workers[..size]);
    let version = num::get8(map, VERSION);
    put_rows(header, &rows, made.count, version);
    Ok(())
}

// Internal: a map that is taken.
fn take(
    header: &mut [u8],
    count: usize,
    map: &[u8],
    starts: &mut [u8],
    answer: &mut [u8],
) -> Result<(), Refusal>
    requires { Counts header.old count × (formed_node (node_at header.old) ≡ true) × MapFormed map.now }
    ensures { TakesAt header.old header.new map.now starts.old starts.new
        answer.old answer.new (number_of result) }
{
    let version = num::get8(map, VERSION);
    if is_quiet(header, count, map) {
        return note(header, count, version, answer);
    }
    change(header, count, map, starts, answer)
}

// Internal: an older version is ignored; a node listed dead starts over; any other map is taken.
fn hear(
    header: &mut [u8],
    map: &[u8],
    fresh: u64,
    starts: &mut [u8],
    answer: &mut [u8],
) -> Result<(), Refusal>
    requires { (header_lent header.old ≡ true) × (formed_node (node_at header.old) ≡ true) × MapFormed map.now }
    ensures { ShowsAt header.old header.new map.now starts.old starts.new
        answer.old answer.new fresh (number_of result) }
{
    let count = num::get8(header, SHARDS) as usize;
    if num::get8(map, VERSION) < num::get8(header, KNOWN) {
        return ignore(header, count, answer);
    }
    let id = num::get8(header, ID);
    let own = num::get8(header, INCARNATION);
    let nodes = num::get8(map, NODES_USED) as usize;
    if dead_in(map, nodes, id, own) {
        return start_over(header, fresh, answer);
    }
    take(header, count, map, starts, answer)
}

// 24; then the map is shown.
pub fn show_map(
    header: &mut [u8],
    map: &[u8],
    fresh: u64,
    starts: &mut [u8],
    answer: &mut [u8],
) -> Result<(), Refusal>
    ensures { Shows header.old header.new map.now starts.old starts.new
        answer.old answer.new fresh (number_of result) }
{
    if !is_lent(header) {
        return Err(Refusal::Malformed);
    }
    if !image_map_check::lent::is_lent(map) {
        return Err(Refusal::Malformed);
    }
    if !image_map_check::formed::is_formed(map) {
        return Err(Refusal::Malformed);
    }
    if !image_header_check::formed::is_formed(header) {
        return Err(Refusal::Malformed);
    }
    hear(header, map, fresh, starts, answer)
}

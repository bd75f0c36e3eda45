// Which projector matters, as a host asks it (paper 02, 2.9): the map is a byte image that the host lends for reading (docs/IMAGES.md). What an
// answer says stands in specs/Calls.antt, a row's bytes in specs/Rows.antt.
#![tactic(auto)]

ghost use Rattle.std.specs.Prelude.{◌≡◌, true, [], ◌≤◌, length, take};
ghost use Rattle.map_check.specs.Lent.{well_formed_lent};
ghost use Rattle.image_map.specs.Image.{map_at};
ghost use Rattle.image_map_loads.specs.Loads.{Used};
ghost use Rattle.map_tables.specs.View.{view_map, view_spec};
ghost use Rattle.spec_losses.specs.Losses.{losses_of};
ghost use Rattle.calls_losses.specs.Rows.{losses_bytes};
ghost use Rattle.calls_losses.specs.Calls.{AnswersRows, Loses};

use crate::rows::put_losses;
use calls_parts::answer::put_number;
use calls_parts::named::key_named;
use image_map_check::formed::is_formed;
use image_map_check::layout::{COLLECTION, COLLECTIONS, COLLECTIONS_USED};
use image_map_check::lent::is_lent;
use image_map_check::place::collection_place;
use image_map_loads::live::live_loads;
use image_map_row::collections::collection_at;
use map_tables::Spec;
use wire_put::put::put_bytes;
use wire_write::fit::text_fits;

mod rows;

// The rows that were put: how many, and their bytes.
#[derive(Drop)]
pub struct Put {
    pub rows: u64,
    pub size: usize,
}

fn answer_rows(list: &mut [u8], answer: &mut [u8], rows: &[u8], put: Put) -> u32
    requires { put.size ≤ length rows.now }
    ensures { AnswersRows (take put.size rows.now) put.rows list.old list.new answer.old answer.new result }
{
    if list.len() < put.size {
        return 23;
    }
    if !put_number(answer, put.rows) {
        return 23;
    }
    let size = put.size;
    put_bytes(list, 0, &rows[..size]);
    0
}

// The list of a collection that the map lacks.
fn answer_none(list: &[u8], answer: &mut [u8]) -> u32
    ensures { AnswersRows [] 0 list.now list.now answer.old answer.new result }
{
    if put_number(answer, 0) { 0 } else { 23 }
}

// Rows are made in a buffer of their own first: until all are there nobody knows whether the list has room for them.
fn answer_losses(list: &mut [u8], answer: &mut [u8], map: &[u8], spec: Spec) -> u32
    requires { (Used map.now) × (well_formed_lent (map_at map.now) ≡ true) }
    ensures { AnswersRows (losses_bytes (losses_of (view_map (map_at map.now)) (view_spec spec))) (length (losses_of (view_map (map_at map.now)) (view_spec spec))) list.old list.new answer.old answer.new result }
{
    let loads = live_loads(map);
    let mut rows = [0u8; 33280];
    let put = put_losses(&mut rows, loads, spec);
    answer_rows(list, answer, &rows, put)
}

// Which single live node, marked dead, changes the answer of place for the collection of that name. 0: `answer` tells in its first 8 bytes how
// many rows stand in `list`; 21 the name, 24 the map, 23 a short `list` or `answer`, last. A refusal changes no byte.
pub fn place_losses(map: &[u8], name: &[u8], list: &mut [u8], answer: &mut [u8]) -> u32
    ensures { Loses map.now name.now list.old list.new answer.old answer.new result }
{
    if !text_fits(name, 32) {
        return 21;
    }
    if !is_lent(map) {
        return 24;
    }
    if !is_formed(map) {
        return 24;
    }
    let key = key_named(name, 0);
    let count = num::get8(map, COLLECTIONS_USED) as usize;
    let at = collection_place(map, count, key.collection);
    if count <= at {
        return answer_none(list, answer);
    }
    let row = collection_at(map, COLLECTIONS + COLLECTION * at);
    let spec = row.spec;
    answer_losses(list, answer, map, spec)
}

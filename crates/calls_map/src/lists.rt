// The answer of place as bytes: 8 for each node, a list behind the other. Internal.
ghost use Rattle.std.specs.Prelude.{◌≡◌, ◌+◌, ◌≤◌, length};
ghost use Rattle.std.proofs.lemmas.List.Edits.{sets};
ghost use Rattle.spec.specs.Map.Place.{placed_on};
ghost use Rattle.map_tables.specs.View.{view_list, view_placement};
ghost use Rattle.map_place.specs.Answers.{placed_of};
ghost use Rattle.calls_map.specs.Places.{list_bytes, lists_bytes, AnswersLists};

use crate::numbers::refusal_number;
use image_parts::bytes::in_use;
use map_place::PlaceAnswer;
use map_tables::{NodeList, Placement};

// How many bytes a list takes.
fn list_size(l: NodeList) -> usize
    ensures { (result ≡ length (list_bytes (view_list l))) × (result ≤ 64) }
{
    8 * in_use(8, l.count)
}

// Internal: and all of them.
pub fn lists_size(p: Placement) -> usize
    ensures { (result ≡ length (lists_bytes (view_placement p))) × (result ≤ 1024) }
{
    let n = in_use(16, p.count);
    let mut size: usize = 0;
    for i in 0..n {
        let l = p.lists[i];
        size += list_size(l);
    }
    size
}

fn put_list(out: &mut [u8], at: usize, l: NodeList)
    requires { at + length (list_bytes (view_list l)) ≤ length out.old }
    ensures { out.new ≡ sets out.old at (list_bytes (view_list l)) }
{
    let n = in_use(8, l.count);
    for i in 0..n {
        let id = l.nodes[i];
        num::put8(out, at + 8 * i, id.0);
    }
}

// Internal: the lists, from a place on.
pub fn put_lists(out: &mut [u8], from: usize, p: Placement)
    requires { from + length (lists_bytes (view_placement p)) ≤ length out.old }
    ensures { out.new ≡ sets out.old from (lists_bytes (view_placement p)) }
{
    let n = in_use(16, p.count);
    let mut at = from;
    for i in 0..n {
        let l = p.lists[i];
        put_list(out, at, l);
        at += list_size(l);
    }
}

// 23 where the lists do not fit.
fn put_placement(out: &mut [u8], p: Placement) -> u32
    ensures { AnswersLists (placed_on (view_placement p)) out.old out.new result }
{
    if out.len() < lists_size(p) {
        return 23;
    }
    put_lists(out, 0, p);
    0
}

// Internal: what place answers.
pub fn answer_lists(out: &mut [u8], a: PlaceAnswer) -> u32
    ensures { AnswersLists (placed_of a) out.old out.new result }
{
    match a {
        Ok(None) => 1,
        Ok(Some(p)) => put_placement(out, p),
        Err(r) => refusal_number(r),
    }
}

// Internal: the rows of a list of losses as bytes, made one node after the other.
ghost use Rattle.std.specs.Prelude.{◌+◌, ◌≤◌, ◌≡◌, length};
ghost use Rattle.map_place.specs.Read.{view_loads, Light};
ghost use Rattle.calls_losses.specs.Rows.{PutsRow, PutsLosses};

use crate::Put;
use calls_map::lists::{lists_size, put_lists};
use image_map_losses::apart::{answer_code, same_answer};
use image_map_losses::left::loads_without;
use map_place::placed::place_on;
use map_place::{Loads, PlaceAnswer};
use map_tables::Spec;
use spec::DataNodeId;

fn put_row(out: &mut [u8], at: usize, node: DataNodeId, a: PlaceAnswer) -> usize
    requires { at + 1040 ≤ length out.old }
    ensures { PutsRow node.0 a out.old out.new at result }
{
    num::put8(out, at, node.0);
    num::put8(out, at + 8, answer_code(a));
    let Ok(Some(placement)) = a else {
        return 16;
    };
    let size = lists_size(placement);
    put_lists(out, at + 16, placement);
    16 + size
}

// Every live node is left out once, and gets a row where place answers otherwise without it.
pub fn put_losses(out: &mut [u8], loads: Loads, spec: Spec) -> Put
    requires { (loads.count ≤ 32) × (length (view_loads loads) ≡ loads.count) × Light 512 (view_loads loads) × (33280 ≤ length out.old) }
    ensures { PutsLosses loads spec out.old out.new result }
{
    let base = place_on(loads, spec);
    let count = loads.count;
    let mut at: usize = 0;
    let mut rows: u64 = 0;
    for i in 0..count {
        let id = DataNodeId(loads.ids[i]);
        let left = loads_without(loads, id);
        let then = place_on(left, spec);
        if same_answer(then, base) {
            continue;
        }
        let size = put_row(out, at, id, then);
        at += size;
        rows += 1;
    }
    Put {
        rows: rows,
        size: at,
    }
}

// The load sheet (paper 02, 2.4): how many replica records name each node of a map, how many name a node that the map does not know, and how many
// there are, counted in the bytes of the map's image. What an answer says stands in specs/Answers.antt.
#![tactic(auto)]

ghost use Rattle.std.specs.Prelude.{◌≡◌};
ghost use Rattle.spec_sheet.specs.Sheet.{sheet_of};
ghost use Rattle.map_tables.specs.View.{view_map};
ghost use Rattle.image_map.specs.Image.{map_at};
ghost use Rattle.image_map_loads.specs.Loads.{Used};
ghost use Rattle.image_map_sheet.specs.Answers.{SheetAs, answer_of, sheet_lent};

use crate::lines::lines;
use crate::shards::{records_in, unknown_in};
use image_map_check::formed::is_formed;
use image_map_check::layout::{NODES_USED, SHARDS_USED};
use image_map_check::lent::is_lent;
use map_tables::Refusal;
use spec::DataNodeId;

mod holders;
mod lines;
mod shards;

// A node's line.
#[derive(Clone, Copy)]
pub struct Load {
    pub node: DataNodeId,
    pub count: u64,
}

// The lines in use are the first `count`, by rising id; the rest is free. Stays an array with a count: there is no heap.
#[derive(Drop)]
pub struct Loads {
    pub items: [Load; 32],
    pub count: usize,
}

#[derive(Drop)]
pub struct SheetOf {
    pub lines: Loads,
    pub unknown: u64,
    pub total: u64,
}

// Internal: of a map that passed the 24 test.
pub fn sheet_of(map: &[u8]) -> SheetOf
    requires { Used map.now }
    ensures { SheetAs (sheet_of (view_map (map_at map.now))) result }
{
    let nodes = num::get8(map, NODES_USED) as usize;
    let shards = num::get8(map, SHARDS_USED) as usize;
    let lines = lines(map, nodes, shards);
    let unknown = unknown_in(map, nodes, shards);
    let total = records_in(map, shards);
    SheetOf {
        lines: lines,
        unknown: unknown,
        total: total,
    }
}

// 24 for a buffer that lends no map, and for a malformed map.
pub fn sheet(map: &[u8]) -> Result<SheetOf, Refusal>
    ensures { answer_of result ≡ sheet_lent map.now }
{
    if !is_lent(map) {
        return Err(Refusal::Malformed);
    }
    if !is_formed(map) {
        return Err(Refusal::Malformed);
    }
    let made = sheet_of(map);
    Ok(made)
}

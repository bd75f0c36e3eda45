// The answer of replacement as bytes: 8 for the node.
ghost use Rattle.spec.specs.Map.Place.{nobody, replaced_by};
ghost use Rattle.map_place.specs.Answers.{replaced_of};
ghost use Rattle.calls_map.specs.Places.{AnswersNode};

use crate::numbers::refusal_number;
use calls_parts::answer::put_number;
use map_place::Replaced;
use spec::DataNodeId;

// A buffer under 8 bytes is 23 even where nothing is put in it.
fn put_none(out: &[u8]) -> u32
    ensures { AnswersNode nobody out.now out.now result }
{
    if out.len() < 8 { 23 } else { 1 }
}

fn put_node(out: &mut [u8], node: DataNodeId) -> u32
    ensures { AnswersNode (replaced_by node.0) out.old out.new result }
{
    if put_number(out, node.0) { 0 } else { 23 }
}

// Internal: what replacement answers.
pub fn answer_node(out: &mut [u8], found: Replaced) -> u32
    ensures { AnswersNode (replaced_of found) out.old out.new result }
{
    match found {
        Ok(None) => put_none(out),
        Ok(Some(node)) => put_node(out, node),
        Err(r) => refusal_number(r),
    }
}

// Internal: whether two answers of place are the same: lists in their order, nodes in theirs.
ghost use Rattle.std.specs.Prelude.{◌≡◌, eqb};
ghost use Rattle.spec_losses.specs.Losses.{same_all, same_lists, same_placed};
ghost use Rattle.spec.specs.Refusals.{number_of};
ghost use Rattle.map_tables.specs.View.{view_list, view_placement, refusal_of};
ghost use Rattle.map_place.specs.Answers.{placed_of};
ghost use Rattle.image_map_losses.specs.Codes.{code_of};

use image_parts::bytes::in_use;
use map_place::PlaceAnswer;
use map_tables::{NodeList, Placement, Refusal};

fn same_nodes(a: NodeList, b: NodeList) -> bool
    ensures { result ≡ same_all eqb (view_list a) (view_list b) }
{
    let n = in_use(8, a.count);
    if in_use(8, b.count) != n {
        return false;
    }
    for i in 0..n {
        let x = a.nodes[i];
        let y = b.nodes[i];
        if x.0 != y.0 {
            return false;
        }
    }
    true
}

fn same_lists(a: Placement, b: Placement) -> bool
    ensures { result ≡ same_lists (view_placement a) (view_placement b) }
{
    let n = in_use(16, a.count);
    if in_use(16, b.count) != n {
        return false;
    }
    for i in 0..n {
        let x = a.lists[i];
        let y = b.lists[i];
        if !same_nodes(x, y) {
            return false;
        }
    }
    true
}

fn refusal_code(r: Refusal) -> u64
    ensures { result ≡ number_of (refusal_of r) }
{
    match r {
        Refusal::Undecodable => 21,
        Refusal::NoRoom => 23,
        Refusal::Malformed => 24,
        Refusal::LastEpoch => 25,
    }
}

// Internal: 0 for lists, 1 for none, a refusal's number.
pub fn answer_code(a: PlaceAnswer) -> u64
    ensures { result ≡ code_of (placed_of a) }
{
    match a {
        Ok(None) => 1,
        Ok(Some(_)) => 0,
        Err(r) => refusal_code(r),
    }
}

// Internal: both none, both with the same lists, or both refused with the same number.
#[tactic(auto, unfolding(spec_losses::specs::Losses::same_placed))]
pub fn same_answer(a: PlaceAnswer, b: PlaceAnswer) -> bool
    ensures { result ≡ same_placed (placed_of a) (placed_of b) }
{
    match (a, b) {
        (Ok(None), Ok(None)) => true,
        (Ok(Some(x)), Ok(Some(y))) => same_lists(x, y),
        (Err(x), Err(y)) => refusal_code(x) == refusal_code(y),
        _ => false,
    }
}

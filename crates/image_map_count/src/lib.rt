// How many placements Create accepts, and how many end in each of 2, 3, 4, 5 and 23 (paper 02, 2.14), by sums of powers: no placement is walked. The
// map is tested and searched in its bytes.
// What is counted is spec_count's Counts; that the sums are the counts, its proofs/Closed. What an answer says stands in specs/Answers.antt.
#![tactic(auto)]

ghost use Rattle.std.specs.Prelude.{◌≡◌, ◌≤◌, length};
ghost use Rattle.image_map.specs.Image.{map_at};
ghost use Rattle.image_map_count.specs.Answers.{counting_of, count_lent};

use crate::given::too_wide;
use crate::six::six_of;
use crate::sums::geometric;
use image_map_check::formed::is_formed;
use map_tables::{Name, Spec};

mod given;
mod six;
mod sums;
mod tests;

// The ids that nodes are drawn from: the first `count`; the rest is free. Stays an array with a count: there is no heap.
#[derive(Clone, Copy)]
pub struct IdSet {
    pub items: [u64; 4],
    pub count: usize,
}

// 1 + b + .. + bⁿ and its last term, where the sum is within 64 bits; where it is not, both are free.
#[derive(Clone, Copy)]
pub struct Summed {
    pub fits: bool,
    pub sum: u64,
    pub last: u64,
}

// Why `count_placements` counts nothing: 35, 36, or 24.
#[derive(Clone, Copy)]
pub enum Uncounted {
    Beyond,
    TooWide,
    Malformed,
}

// 24, 36, 35, then the counts: accepted, 2, 3, 4, 5, 23.
pub fn count_placements(
    map: &[u8],
    name: Name,
    spec: Spec,
    ids: IdSet,
    lists: u32,
    nodes: u32,
) -> Result<[u64; 6], Uncounted>
    requires { 26536 ≤ length map.now }
    ensures { counting_of result ≡ count_lent (map_at map.now) name spec ids lists nodes }
{
    if !is_formed(map) {
        return Err(Uncounted::Malformed);
    }
    if too_wide(ids, lists, nodes) {
        return Err(Uncounted::TooWide);
    }
    let given = ids.count as u64;
    let each = geometric(given, nodes);
    let total = geometric(each.sum, lists);
    if !total.fits {
        return Err(Uncounted::Beyond);
    }
    let six = six_of(map, name, spec, ids, lists, nodes, total.sum);
    Ok(six)
}

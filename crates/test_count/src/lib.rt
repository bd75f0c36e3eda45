// All placements one after the other, each asked of Create. A list is a number in digits 1 to as many as there are ids, a placement one in digits 1
// to as many as there are lists: so each is met once, the shortest first.
#![tactic(auto)]

ghost use Rattle.std.specs.Prelude.{◌≤◌};
ghost use Rattle.thm_map_never_malformed.specs.Calls.{Intact};

use calls_map::numbers::verdict_number;
use image_map_create::answer::create_answer;
use map_tables::{Name, NodeList, Placement, Spec};
use spec::DataNodeId;

pub mod answers;
pub mod records;

// How many ended how.
#[derive(Drop)]
pub struct Ended {
    pub accepted: u64,
    pub two: u64,
    pub three: u64,
    pub four: u64,
    pub five: u64,
    pub full: u64,
}

// The last digit, from 0 on.
fn digit(n: u64, base: u64) -> u64 {
    if base == 0 {
        return 0;
    }
    if n == 0 {
        return 0;
    }
    (n - 1) % base
}

// The number without its last digit.
fn shorter(n: u64, base: u64) -> u64 {
    if base == 0 {
        return 0;
    }
    if n == 0 {
        return 0;
    }
    (n - 1) / base
}

fn id_at(ids: &[u8], i: u64) -> u64 {
    if 4 <= i {
        return 0;
    }
    let at = 8 * (i as usize);
    if ids.len() < at + 8 {
        return 0;
    }
    num::get8(ids, at)
}

fn list_at(ids: &[u8], n: u64) -> NodeList {
    let base = (ids.len() / 8) as u64;
    let mut nodes = [DataNodeId(0); 8];
    let mut left = n;
    for count in 0..8 {
        if left == 0 {
            return NodeList {
                nodes: nodes,
                count: count,
            };
        }
        let node = DataNodeId(id_at(ids, digit(left, base)));
        nodes[count] = node;
        left = shorter(left, base);
    }
    NodeList {
        nodes: nodes,
        count: 8,
    }
}

fn placement_at(ids: &[u8], each: u64, n: u64) -> Placement
    ensures { result.count ≤ 16 }
{
    let empty = list_at(ids, 0);
    let mut lists = [empty; 16];
    let mut left = n;
    for count in 0..16 {
        if left == 0 {
            return Placement {
                lists: lists,
                count: count,
            };
        }
        let list = list_at(ids, digit(left, each));
        lists[count] = list;
        left = shorter(left, each);
    }
    Placement {
        lists: lists,
        count: 16,
    }
}

fn one_if(said: u32, n: u32) -> u64 {
    if said == n { 1 } else { 0 }
}

fn with(w: Ended, said: u32) -> Ended {
    Ended {
        accepted: std::num::wrapping_add_u64(w.accepted, one_if(said, 0)),
        two: std::num::wrapping_add_u64(w.two, one_if(said, 2)),
        three: std::num::wrapping_add_u64(w.three, one_if(said, 3)),
        four: std::num::wrapping_add_u64(w.four, one_if(said, 4)),
        five: std::num::wrapping_add_u64(w.five, one_if(said, 5)),
        full: std::num::wrapping_add_u64(w.full, one_if(said, 23)),
    }
}

pub fn walk(map: &[u8], name: Name, spec: Spec, ids: &[u8], each: u64, total: u64) -> Ended
    requires { Intact map.now }
{
    let mut w = Ended {
        accepted: 0,
        two: 0,
        three: 0,
        four: 0,
        five: 0,
        full: 0,
    };
    for i in 0..total {
        let p = placement_at(ids, each, i);
        let v = create_answer(map, name, spec, p);
        let more = with(w, verdict_number(v));
        w = more;
    }
    w
}

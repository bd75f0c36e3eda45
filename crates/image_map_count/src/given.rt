// Internal: 36, of the ids and the two numbers that are given.
ghost use Rattle.std.specs.Prelude.{◌≡◌, ◌≤◌, eqb, drop};
ghost use Rattle.spec.specs.Lists.{any};
ghost use Rattle.spec_count.specs.Counts.{repeats};
ghost use Rattle.image_map_count.specs.Read.{view_ids, wide_lent};

use crate::IdSet;

// Whether the id stands among those from a place on.
fn stands_from(ids: IdSet, from: usize, id: u64) -> bool
    requires { (ids.count ≤ 4) × (from ≤ ids.count) }
    ensures { result ≡ any (eqb id) (drop from (view_ids ids)) }
{
    let count = ids.count;
    for i in from..count {
        let other = ids.items[i];
        if id == other {
            return true;
        }
    }
    false
}

// Whether an id is given twice.
fn given_twice(ids: IdSet) -> bool
    requires { ids.count ≤ 4 }
    ensures { result ≡ repeats (view_ids ids) }
{
    let count = ids.count;
    for i in 0..count {
        let id = ids.items[i];
        if stands_from(ids, i + 1, id) {
            return true;
        }
    }
    false
}

pub fn too_wide(ids: IdSet, lists: u32, nodes: u32) -> bool
    ensures { result ≡ wide_lent ids lists nodes }
{
    if 4 < ids.count {
        return true;
    }
    if 16 < lists {
        return true;
    }
    if 8 < nodes {
        return true;
    }
    given_twice(ids)
}

// Places of later entries by their ids, as hints: the last place met of each slot, and for each place the one of its slot met before it.
// Whatever they hold, only what is tested counts, so nothing is said of them but their size. Only of a log whose ids are chosen to share
// one slot do they find little; each entry of a deleted id then costs a walk over the ids behind it. Internal.

ghost use Rattle.std.specs.Prelude.{◌≡◌, true, ◌≤◌, ◌<◌, length};
ghost use Rattle.log_check.specs.Conditions.{Again};

// Where the places of an id are kept: 2039 is a prime, so that ids at any even spacing spread.
fn slot(id: u64) -> usize
    ensures { result < 2039 }
{
    (id % 2039) as usize
}

fn place_of(hint: u16) -> usize {
    hint as usize
}

// Whether an entry behind place i with its id is found by a few steps along the places that share the id's slot. The two columns are
// hints and may hold anything: each place is tested, and an answer of false says nothing.
pub fn hinted(ids: &[u64], heads: &[u16], nexts: &[u16], count: usize, i: usize) -> bool
    requires { (i < count) × (count ≤ length ids.now) × (count ≤ length nexts.now) × (length heads.now ≡ 2039) }
    ensures { result ≡ true → Again ids.now count i }
{
    let at = slot(ids[i]);
    let mut k = place_of(heads[at]);
    for _ in 0..8 {
        if k <= i {
            return false;
        }
        if count <= k {
            return false;
        }
        if ids[k] == ids[i] {
            return true;
        }
        k = place_of(nexts[k]);
    }
    false
}

// Puts place i at the head of its slot, if hints are kept. What they hold then is free.
pub fn remember(heads: &mut [u16], nexts: &mut [u16], kept: bool, id: u64, i: usize)
    requires { (i < 1024) × (length heads.old ≡ 2039) × (length nexts.old ≡ 1024) }
    ensures { (length heads.new ≡ 2039) × (length nexts.new ≡ 1024) }
{
    if !kept {
        return;
    }
    let at = slot(id);
    nexts[i] = heads[at];
    heads[at] = i as u16;
}

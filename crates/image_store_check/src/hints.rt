// Places of later entries by their ids, as hints (crate log_check has the same over columns). Internal.

ghost use Rattle.std.specs.Prelude.{◌≡◌, true, ◌≤◌, ◌<◌, length};
ghost use Rattle.log_check.specs.Conditions.{Again};
ghost use Rattle.image_store_check.specs.Test.{Stands, ids_in};

use crate::columns::IDS;

// Slots of hints: a prime, so that ids in steps fall apart.
pub const SLOTS: usize = 2039;

fn slot(id: u64) -> usize
    ensures { result < 2039 }
{
    (id % SLOTS as u64) as usize
}

// Whether an entry behind place i with its id is found by a few steps. Each place is tested, and an answer of false says nothing.
pub fn hinted(s: &[u8], base: usize, heads: &[u16], nexts: &[u16], count: usize, i: usize) -> bool
    requires { (i < count) × (count ≤ 1024) × Stands s.now base × (length nexts.now ≡ 1024) × (length heads.now ≡ 2039) }
    ensures { result ≡ true → Again (ids_in s.now base) count i }
{
    let ids = base + IDS;
    let id = num::get8(s, ids + 8 * i);
    let at = slot(id);
    let mut k = heads[at] as usize;
    for _ in 0..8 {
        if k <= i {
            return false;
        }
        if count <= k {
            return false;
        }
        if num::get8(s, ids + 8 * k) == id {
            return true;
        }
        k = nexts[k] as usize;
    }
    false
}

// Puts place i at the head of its slot. What the hints hold then is free.
pub fn remember(heads: &mut [u16], nexts: &mut [u16], id: u64, i: usize)
    requires { (i < 1024) × (length heads.old ≡ 2039) × (length nexts.old ≡ 1024) }
    ensures { (length heads.new ≡ 2039) × (length nexts.new ≡ 1024) }
{
    let at = slot(id);
    nexts[i] = heads[at];
    heads[at] = i as u16;
}

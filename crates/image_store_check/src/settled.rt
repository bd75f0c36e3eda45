// The clause of 24 that the table is the log played, from the bytes: the rows fit, and each entry is settled. Where there are as many rows as
// entries, rows that fit name as many entries as there are, so each is settled and no mark is needed. Internal.

ghost use Rattle.std.specs.Prelude.{◌≡◌, ℕ, ◌+◌, ◌≤◌, ◌<◌, length, get_or};
ghost use Rattle.log_store.specs.Table.{rows_played};
ghost use Rattle.log_store.specs.Store.{same_rows};
ghost use Rattle.log_check.specs.Conditions.{Decides, Rises, Again};
ghost use Rattle.image_store.specs.Image.{keys_in, rows_at};
ghost use Rattle.image_store.specs.Read.{codes_in};
ghost use Rattle.image_store_check.specs.Test.{Stands, offsets_in, ids_in, AgreesIn, SettledIn, AllSettledIn, WalkIn};

use crate::columns::{CODES, ENTRIES, IDS, KEYS, PLACES};
use crate::hints::{SLOTS, hinted, remember};
use crate::rows::{mark_rows, rows_fit, seek};

// Whether entries i and k have one id.
fn same_id(s: &[u8], base: usize, i: usize, k: usize) -> bool
    requires { (i < 1024) × (k < 1024) × Stands s.now base }
    ensures { Decides result (get_or (ids_in s.now base) k 0 ≡ get_or (ids_in s.now base) i 0) }
{
    let ids = base + IDS;
    num::get8(s, ids + 8 * k) == num::get8(s, ids + 8 * i)
}

// Whether an entry behind place i has its id.
fn comes_again(s: &[u8], base: usize, count: usize, i: usize) -> bool
    requires { (i < count) × (count ≤ 1024) × Stands s.now base }
    ensures { Decides result (Again (ids_in s.now base) count i) }
{
    (i + 1..count).any(|k| same_id(s, base, i, k))
}

// Whether entry i agrees with the rows.
fn agrees(s: &[u8], base: usize, stored: usize, i: usize) -> bool
    requires { (i < 1024) × (stored ≤ 1024) × Stands s.now base × Rises (keys_in s.now base) stored }
    ensures { Decides result (AgreesIn s.now base stored i) }
{
    let id = num::get8(s, base + IDS + 8 * i);
    let code = s[base + CODES + i];
    let at = seek(s, base, stored, id);
    if stored <= at {
        return code != 1;
    }
    if num::get8(s, base + KEYS + 8 * at) != id {
        return code != 1;
    }
    (i as u64) < num::get8(s, base + PLACES + 8 * at)
}

// Whether entry i is settled.
fn is_settled(
    s: &[u8],
    base: usize,
    marks: &[u8],
    heads: &[u16],
    nexts: &[u16],
    count: usize,
    stored: usize,
    i: usize,
) -> bool
    requires { (i < count) × WalkIn s.now base marks.now count stored × Stands s.now base × (length heads.now ≡ 2039) × (length nexts.now ≡ 1024) }
    ensures { Decides result (SettledIn s.now base count stored i) }
{
    if marks[i] != 0 {
        return true;
    }
    if hinted(s, base, heads, nexts, count, i) {
        return true;
    }
    if agrees(s, base, stored, i) {
        return true;
    }
    comes_again(s, base, count, i)
}

// Whether every entry is, from the last to the first, so that hints are places of later entries.
fn all_settled(
    s: &[u8],
    base: usize,
    marks: &[u8],
    heads: &mut [u16],
    nexts: &mut [u16],
    count: usize,
    stored: usize,
) -> bool
    requires { WalkIn s.now base marks.now count stored × Stands s.now base × (length heads.old ≡ 2039) × (length nexts.old ≡ 1024) }
    ensures { Decides result (AllSettledIn s.now base count stored) }
{
    let ids = base + IDS;
    for i in (0..count).rev() {
        if !is_settled(s, base, marks, heads, nexts, count, stored, i) {
            return false;
        }
        remember(heads, nexts, num::get8(s, ids + 8 * i), i);
    }
    true
}

// .. with marks and hints of its own.
fn played_by_marks(s: &[u8], base: usize, count: usize, stored: usize) -> bool
    requires { (count ≤ 1024) × (stored ≤ 1024) × Stands s.now base × ((i : ℕ) → i < count → get_or (offsets_in s.now base) i 0 ≡ i + 1) }
    ensures { result ≡ same_rows (rows_at s.now base stored)
        (rows_played (offsets_in s.now base) (ids_in s.now base) (codes_in s.now base) count) }
{
    let mut marks = [0u8; ENTRIES];
    if !mark_rows(s, base, &mut marks, count, stored) {
        return false;
    }
    let mut heads = [0u16; SLOTS];
    let mut nexts = [0u16; ENTRIES];
    all_settled(s, base, &marks, &mut heads, &mut nexts, count, stored)
}

// Whether the rows of the table are the log played. The entries' offsets are 1, 2, 3 and so on.
pub fn table_played(s: &[u8], base: usize, count: usize, stored: usize) -> bool
    requires { (count ≤ 1024) × (stored ≤ 1024) × Stands s.now base × ((i : ℕ) → i < count → get_or (offsets_in s.now base) i 0 ≡ i + 1) }
    ensures { result ≡ same_rows (rows_at s.now base stored)
        (rows_played (offsets_in s.now base) (ids_in s.now base) (codes_in s.now base) count) }
{
    if stored != count {
        return played_by_marks(s, base, count, stored);
    }
    rows_fit(s, base, count, stored)
}

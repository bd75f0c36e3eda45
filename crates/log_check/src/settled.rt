// The clause of 24 that the table is the log played: the rows fit, and each entry is settled. Nearly every entry of a log is one that a row
// names, which a mark tells, or has a later one of its id, which a hint finds; the others are looked up. Internal.

ghost use Rattle.std.specs.Prelude.{◌≡◌, ℕ, ◌+◌, ◌≤◌, ◌<◌, length, get_or};
ghost use Rattle.log_store.specs.Table.{rows_of, rows_played};
ghost use Rattle.log_store.specs.Store.{same_rows};
ghost use Rattle.log_check.specs.Conditions.{Decides, Rises, Walk, Agrees, Again, Settled, AllSettled};

// Whether an entry behind place i has its id.
fn comes_again(ids: &[u64], count: usize, i: usize) -> bool
    requires { (i < count) × (count ≤ length ids.now) }
    ensures { Decides result (Again ids.now count i) }
{
    let id = ids[i];
    for k in i + 1..count {
        if ids[k] == id {
            return true;
        }
    }
    false
}

// Whether entry i agrees with the rows.
fn agrees(ids: &[u64], codes: &[u8], keys: &[u64], places: &[u64], stored: usize, i: usize) -> bool
    requires { (i < 1024) × (stored ≤ 1024) × (length ids.now ≡ 1024) × (length codes.now ≡ 1024) × (length keys.now ≡ 1024) × (length places.now ≡ 1024)
        × Rises keys.now stored }
    ensures { Decides result (Agrees ids.now codes.now keys.now places.now stored i) }
{
    let id = ids[i];
    let at = super::rows::seek(keys, stored, id);
    if stored <= at {
        return codes[i] != 1;
    }
    if keys[at] != id {
        return codes[i] != 1;
    }
    (i as u64) < places[at]
}

// Whether entry i is settled.
fn is_settled(
    ids: &[u64],
    codes: &[u8],
    keys: &[u64],
    places: &[u64],
    marks: &[u8],
    heads: &[u16],
    nexts: &[u16],
    count: usize,
    stored: usize,
    i: usize,
) -> bool
    requires { (i < count) × Walk ids.now codes.now keys.now places.now marks.now count stored × (length heads.now ≡ 2039)
        × (length nexts.now ≡ 1024) }
    ensures { Decides result (Settled ids.now codes.now keys.now places.now count stored i) }
{
    if marks[i] != 0 {
        return true;
    }
    if super::hints::hinted(ids, heads, nexts, count, i) {
        return true;
    }
    if agrees(ids, codes, keys, places, stored, i) {
        return true;
    }
    comes_again(ids, count, i)
}

// Whether every entry is, from the last to the first, so that hints are places of later entries. What they hold at the end is free. Where
// there are as many rows as entries, each entry is marked, and no hint is kept.
fn all_settled(
    ids: &[u64],
    codes: &[u8],
    keys: &[u64],
    places: &[u64],
    marks: &[u8],
    heads: &mut [u16],
    nexts: &mut [u16],
    count: usize,
    stored: usize,
) -> bool
    requires { Walk ids.now codes.now keys.now places.now marks.now count stored × (length heads.old ≡ 2039) × (length nexts.old ≡ 1024) }
    ensures { Decides result (AllSettled ids.now codes.now keys.now places.now count stored) }
{
    let kept = stored < count;
    for i in (0..count).rev() {
        if !is_settled(
            ids, codes, keys, places, marks, heads, nexts, count, stored, i,
        ) {
            return false;
        }
        super::hints::remember(heads, nexts, kept, ids[i], i);
    }
    true
}

// Whether the rows of the table are the log played. The entries' offsets are 1, 2, 3 and so on.
pub fn table_played(
    offsets: &[u64],
    ids: &[u64],
    codes: &[u8],
    keys: &[u64],
    places: &[u64],
    count: usize,
    stored: usize,
) -> bool
    requires { (count ≤ 1024) × (stored ≤ 1024) × (length ids.now ≡ 1024) × (length codes.now ≡ 1024) × (length keys.now ≡ 1024)
        × (length places.now ≡ 1024) × ((i : ℕ) → i < count → get_or offsets.now i 0 ≡ i + 1) }
    ensures { result ≡ same_rows (rows_of keys.now places.now stored)
        (rows_played offsets.now ids.now codes.now count) }
{
    let mut marks = [0u8; 1024];
    if !super::rows::mark_rows(ids, codes, keys, places, &mut marks, count, stored) {
        return false;
    }
    let mut heads = [0u16; 2039];
    let mut nexts = [0u16; 1024];
    all_settled(
        ids, codes, keys, places, &marks, &mut heads, &mut nexts, count, stored,
    )
}

// The clauses of 24 that speak of the rows: the keys rise, and each row names an Upsert of its id. Internal.

ghost use Rattle.std.specs.Prelude.{◌≡◌, ℕ, ◌≤◌, ◌<◌, length, get_or};
ghost use Rattle.log_check.specs.Conditions.{Decides, Rises, RowFits, Tested, Parted};

// Whether row j stands above the one before it and names an Upsert of its id.
fn row_fits(ids: &[u64], codes: &[u8], keys: &[u64], places: &[u64], count: usize, j: usize) -> bool
    requires { (j < 1024) × (count ≤ 1024) × (length ids.now ≡ 1024) × (length codes.now ≡ 1024) × (length keys.now ≡ 1024) × (length places.now ≡ 1024) }
    ensures { Decides result (RowFits ids.now codes.now keys.now places.now count j) }
{
    let p = places[j];
    if p == 0 {
        return false;
    }
    if (count as u64) < p {
        return false;
    }
    let i = (p - 1) as usize;
    if ids[i] != keys[j] {
        return false;
    }
    if codes[i] != 1 {
        return false;
    }
    if j == 0 {
        return true;
    }
    keys[j - 1] < keys[j]
}

// Whether each row does; the entries that the rows name are marked by 1.
pub fn mark_rows(
    ids: &[u64],
    codes: &[u8],
    keys: &[u64],
    places: &[u64],
    marks: &mut [u8],
    count: usize,
    stored: usize,
) -> bool
    requires { (count ≤ 1024) × (stored ≤ 1024) × (length ids.now ≡ 1024) × (length codes.now ≡ 1024) × (length keys.now ≡ 1024) × (length places.now ≡ 1024)
        × (length marks.old ≡ 1024) × ((i : ℕ) → get_or marks.old i 0 ≡ 0) }
    ensures { Tested ids.now codes.now keys.now places.now marks.new count stored result }
{
    for j in 0..stored {
        if !row_fits(ids, codes, keys, places, count, j) {
            return false;
        }
        let i = (places[j] - 1) as usize;
        marks[i] = 1;
    }
    true
}

// How many of the first n keys, which rise, stand below `id`.
pub fn seek(keys: &[u64], n: usize, id: u64) -> usize
    requires { (n ≤ length keys.now) × Rises keys.now n }
    ensures { Parted keys.now n id result }
{
    keys[..n].partition_point(|k| *k < id)
}

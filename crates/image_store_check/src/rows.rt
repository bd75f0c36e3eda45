// The clauses of 24 that speak of the rows, from the bytes: the keys rise, and each row names an Upsert of its id. Internal.

ghost use Rattle.std.specs.Prelude.{◌≡◌, ℕ, ◌+◌, ◌≤◌, ◌<◌, length, get_or};
ghost use Rattle.log_check.specs.Conditions.{Decides, Rises, Parted};
ghost use Rattle.image_store.specs.Image.{keys_in};
ghost use Rattle.image_store_check.specs.Test.{Stands, RowFitsIn, RowsFitIn, TestedIn};

use crate::columns::{CODES, IDS, KEYS, PLACES};

// Whether row j stands above the one before it and names an Upsert of its id.
fn row_fits(s: &[u8], base: usize, count: usize, j: usize) -> bool
    requires { (j < 1024) × (count ≤ 1024) × Stands s.now base }
    ensures { Decides result (RowFitsIn s.now base count j) }
{
    let p = num::get8(s, base + PLACES + 8 * j);
    if p == 0 {
        return false;
    }
    if (count as u64) < p {
        return false;
    }
    let i = (p - 1) as usize;
    let key = num::get8(s, base + KEYS + 8 * j);
    if num::get8(s, base + IDS + 8 * i) != key {
        return false;
    }
    if s[base + CODES + i] != 1 {
        return false;
    }
    if j == 0 {
        return true;
    }
    num::get8(s, base + KEYS + 8 * (j - 1)) < key
}

// Whether each row does.
pub fn rows_fit(s: &[u8], base: usize, count: usize, stored: usize) -> bool
    requires { (count ≤ 1024) × (stored ≤ 1024) × Stands s.now base }
    ensures { Decides result (RowsFitIn s.now base count stored) }
{
    (0..stored).all(|j| row_fits(s, base, count, j))
}

// The same; the entries that the rows name are marked by 1.
pub fn mark_rows(s: &[u8], base: usize, marks: &mut [u8], count: usize, stored: usize) -> bool
    requires { (count ≤ 1024) × (stored ≤ 1024) × Stands s.now base × (length marks.old ≡ 1024) × ((i : ℕ) → get_or marks.old i 0 ≡ 0) }
    ensures { TestedIn s.now base marks.new count stored result }
{
    for j in 0..stored {
        if !row_fits(s, base, count, j) {
            return false;
        }
        let i = (num::get8(s, base + PLACES + 8 * j) - 1) as usize;
        marks[i] = 1;
    }
    true
}

// How many of the first n keys, which rise, stand below `id`.
pub fn seek(s: &[u8], base: usize, n: usize, id: u64) -> usize
    requires { (n ≤ 1024) × Stands s.now base × Rises (keys_in s.now base) n }
    ensures { Parted (keys_in s.now base) n id result }
{
    let at = base + KEYS;
    let mut low: usize = 0;
    let mut high = n;
    // Stays a while: a binary search, whose two ends close in on the place.
    while low < high {
        let mid = low + (high - low) / 2;
        if num::get8(s, at + 8 * mid) < id {
            low = mid + 1;
        } else {
            high = mid;
        }
    }
    low
}

// The row of one id set or taken out, where the table stands in the bytes. Internal: the keys rise.
ghost use Rattle.std.specs.Prelude.{◌≡◌, ◌+◌, ◌≤◌, ◌<◌, length, get_or};
ghost use Rattle.spec.specs.Lists.{put, filter};
ghost use Rattle.log_store.specs.Table.{row_below, other_row};
ghost use Rattle.log_check.specs.Conditions.{Decides, Rises};
ghost use Rattle.image_store.specs.Image.{keys_in, rows_at};
ghost use Rattle.image_store_check.specs.Test.{Stands};
ghost use Rattle.image_store_append.specs.Put.{Tables};

use crate::words::{insert_word, remove_word};
use image_store_check::columns::{KEYS, PLACES};
use image_store_check::rows::seek;

// Whether the row at a place is that of `id`.
fn is_at(s: &[u8], base: usize, stored: usize, at: usize, id: u64) -> bool
    requires { (stored ≤ 1024) × Stands s.now base }
    ensures { Decides result ((at < stored) × (get_or (keys_in s.now base) at 0 ≡ id)) }
{
    if stored <= at {
        return false;
    }
    num::get8(s, base + KEYS + 8 * at) == id
}

// The row of `id` set to `offset`: in the place of its old one, or put in. Answers how many rows there are.
pub fn put_row(out: &mut [u8], base: usize, stored: usize, id: u64, offset: u64) -> usize
    requires { (stored < 1024) × Stands out.old base × Rises (keys_in out.old base) stored }
    ensures { Tables out.old out.new base (put row_below (record { id = id; offset = offset }) (rows_at out.old base stored)) result }
{
    let keys = base + KEYS;
    let places = base + PLACES;
    let at = seek(out, base, stored, id);
    if is_at(out, base, stored, at, id) {
        num::put8(out, places + 8 * at, offset);
        return stored;
    }
    insert_word(out, keys, stored, at, id);
    insert_word(out, places, stored, at, offset);
    stored + 1
}

// The row of `id` taken out, if there is one. Answers how many rows there are.
pub fn drop_row(out: &mut [u8], base: usize, stored: usize, id: u64) -> usize
    requires { (stored ≤ 1024) × Stands out.old base × Rises (keys_in out.old base) stored }
    ensures { Tables out.old out.new base (filter (other_row id) (rows_at out.old base stored)) result }
{
    let keys = base + KEYS;
    let places = base + PLACES;
    let at = seek(out, base, stored, id);
    if !is_at(out, base, stored, at, id) {
        return stored;
    }
    remove_word(out, keys, stored, at);
    remove_word(out, places, stored, at);
    stored - 1
}

// The bytes of one entry, and a store one entry longer. Internal: the store has been tested, and so has the vector.
ghost use Rattle.std.specs.Prelude.{◌≡◌, true, ◌+◌, ◌*◌, ◌≤◌, ◌<◌, length};
ghost use Rattle.std.proofs.lemmas.List.Edits.{sets};
ghost use Rattle.spec.specs.Layout.Format.{bytes_of, concat_map};
ghost use Rattle.image_store.specs.Image.{words, well_formed_image};
ghost use Rattle.image_store.specs.Write.{numbers_put, entry_put};
ghost use Rattle.image_store_check.specs.Test.{Stands};
ghost use Rattle.image_store_append.specs.Put.{Vector, Grown, upsert_at, delete_at};

use crate::rows::{drop_row, put_row};
use image_store_check::columns::{CODES, FLOATS, FLOATS_OF_ONE, IDS, LENGTHS, OFFSETS};
use wire_write::put::put_byte;

// n patterns of a message, from a position on.
fn put_patterns(out: &mut [u8], at: usize, s: &[u8], from: usize, n: usize)
    requires { (at + 4 * n ≤ length out.old) × (from + 4 * n ≤ length s.now) }
    ensures { out.new ≡ sets out.old at (concat_map (bytes_of 4) (words 4 n s.now from)) }
{
    for i in 0..n {
        let x = num::get4(s, from + 4 * i);
        num::put4(out, at + 4 * i, x);
    }
}

// The numbers of the entry at place i, each in its column.
fn put_numbers(
    out: &mut [u8],
    base: usize,
    i: usize,
    epoch: u64,
    offset: u64,
    id: u64,
    code: u8,
    len: u8,
)
    requires { (i < 1024) × Stands out.old base }
    ensures { out.new ≡ numbers_put out.old base i epoch offset id code len }
{
    num::put8(out, base + i * 8, epoch);
    num::put8(out, base + OFFSETS + i * 8, offset);
    num::put8(out, base + IDS + i * 8, id);
    put_byte(out, base + CODES + i, code);
    put_byte(out, base + LENGTHS + i, len);
}

// An Upsert at place i, its vector from a message.
fn put_upsert(
    out: &mut [u8],
    base: usize,
    i: usize,
    epoch: u64,
    id: u64,
    s: &[u8],
    from: usize,
    n: usize,
)
    requires { (i < 1024) × Stands out.old base × (n ≤ 32) × (from + 4 * n ≤ length s.now) × Vector (words 4 n s.now from) }
    ensures { out.new ≡ entry_put out.old base i (upsert_at epoch i id (words 4 n s.now from)) }
{
    put_patterns(out, base + FLOATS + i * FLOATS_OF_ONE, s, from, n);
    put_numbers(out, base, i, epoch, (i + 1) as u64, id, 1, n as u8);
}

// A Delete at place i.
fn put_delete(out: &mut [u8], base: usize, i: usize, epoch: u64, id: u64)
    requires { (i < 1024) × Stands out.old base }
    ensures { out.new ≡ entry_put out.old base i (delete_at epoch i id) }
{
    put_numbers(out, base, i, epoch, (i + 1) as u64, id, 2, 0);
}

// The store one Upsert longer. Answers how many rows its table has.
pub fn append_upsert(
    out: &mut [u8],
    base: usize,
    count: usize,
    stored: usize,
    epoch: u64,
    id: u64,
    s: &[u8],
    from: usize,
    n: usize,
) -> usize
    requires { (count < 1024) × Stands out.old base × (well_formed_image out.old base count stored ≡ true) × (n ≤ 32) × (from + 4 * n ≤ length s.now)
        × Vector (words 4 n s.now from) }
    ensures { Grown out.old out.new base count (upsert_at epoch count id (words 4 n s.now from)) result }
{
    put_upsert(out, base, count, epoch, id, s, from, n);
    put_row(out, base, stored, id, (count + 1) as u64)
}

// The store one Delete longer.
pub fn append_delete(
    out: &mut [u8],
    base: usize,
    count: usize,
    stored: usize,
    epoch: u64,
    id: u64,
) -> usize
    requires { (count < 1024) × Stands out.old base × (well_formed_image out.old base count stored ≡ true) }
    ensures { Grown out.old out.new base count (delete_at epoch count id) result }
{
    put_delete(out, base, count, epoch, id);
    drop_row(out, base, stored, id)
}

// The clauses of 24 that speak of the entries, from the bytes. Each column is tested in one pass without early exit, and so are the patterns
// of all stretches; only if one of those, used or free, lies outside the domain is each Upsert's own part tested. Internal.

ghost use Rattle.std.specs.Prelude.{◌≡◌, ◌+◌, ◌*◌, ◌≤◌, ◌<◌, length};
ghost use Rattle.spec.specs.Lists.{every};
ghost use Rattle.spec.specs.Nearest.Order.{bits_in_domain};
ghost use Rattle.log_store.specs.Store.{every_below};
ghost use Rattle.log_check.specs.Entries.{number_fits, shape_fits, shape_at};
ghost use Rattle.image_store.specs.Image.{words};
ghost use Rattle.image_store.specs.Read.{codes_in, lengths_in};
ghost use Rattle.image_store_check.specs.Test.{Stands, offsets_in, entry_fits};

use crate::columns::{CODES, FLOATS, FLOATS_OF_ONE, LENGTHS, OFFSETS};

// Whether n patterns from a position on lie in the domain.
pub fn all_inside(s: &[u8], at: usize, n: usize) -> bool
    requires { at + 4 * n ≤ length s.now }
    ensures { result ≡ every bits_in_domain (words 4 n s.now at) }
{
    let mut ok = true;
    for i in 0..n {
        if !float_distance::order::bits_in_domain(num::get4(s, at + 4 * i)) {
            ok = false;
        }
    }
    ok
}

// A Delete, or an Upsert of 1 to 32 floats.
fn is_listed(code: u8, len: u8) -> bool
    ensures { result ≡ shape_fits code len }
{
    if code != 1 {
        return code == 2;
    }
    if len == 0 {
        return false;
    }
    len <= 32
}

// The clauses of entry i.
fn entry_fits(s: &[u8], base: usize, i: usize) -> bool
    requires { (i < 1024) × Stands s.now base }
    ensures { result ≡ entry_fits s.now base i }
{
    if num::get8(s, base + OFFSETS + 8 * i) != (i + 1) as u64 {
        return false;
    }
    let code = s[base + CODES + i];
    let len = s[base + LENGTHS + i];
    if !is_listed(code, len) {
        return false;
    }
    if code != 1 {
        return true;
    }
    all_inside(s, base + FLOATS + i * FLOATS_OF_ONE, len as usize)
}

// .. of each of the first `count` entries, one by one.
fn each_fits(s: &[u8], base: usize, count: usize) -> bool
    requires { (count ≤ 1024) × Stands s.now base }
    ensures { result ≡ every_below (entry_fits s.now base) count }
{
    (0..count).all(|i| entry_fits(s, base, i))
}

// Whether the offsets of the first `count` entries are 1, 2, 3 and so on.
fn numbered(s: &[u8], base: usize, count: usize) -> bool
    requires { (count ≤ 1024) × Stands s.now base }
    ensures { result ≡ every_below (number_fits (offsets_in s.now base)) count }
{
    let at = base + OFFSETS;
    let mut ok = true;
    for i in 0..count {
        if num::get8(s, at + 8 * i) != (i + 1) as u64 {
            ok = false;
        }
    }
    ok
}

// Whether each of them is a Delete, or an Upsert of 1 to 32 floats.
fn listed(s: &[u8], base: usize, count: usize) -> bool
    requires { (count ≤ 1024) × Stands s.now base }
    ensures { result ≡ every_below (shape_at (codes_in s.now base) (lengths_in s.now base)) count }
{
    let codes = base + CODES;
    let lengths = base + LENGTHS;
    let mut ok = true;
    for i in 0..count {
        if !is_listed(s[codes + i], s[lengths + i]) {
            ok = false;
        }
    }
    ok
}

// The clauses of each of the first `count` entries.
pub fn entries_fit(s: &[u8], base: usize, count: usize) -> bool
    requires { (count ≤ 1024) × Stands s.now base }
    ensures { result ≡ every_below (entry_fits s.now base) count }
{
    if !all_inside(s, base + FLOATS, count * 32) {
        return each_fits(s, base, count);
    }
    if !numbered(s, base, count) {
        return false;
    }
    listed(s, base, count)
}

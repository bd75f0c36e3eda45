// The epoch table of a log (shard.rs, epoch_ends): a pair for each run of equal epochs, its epoch and its last offset.
ghost use Rattle.std.specs.Prelude.{◌≡◌, map, ◌+◌, ◌*◌, ◌≤◌, ◌<◌, length};
ghost use Rattle.std.proofs.lemmas.List.Edits.{sets};
ghost use Rattle.spec.specs.Log.{epoch_ends};
ghost use Rattle.image_store.specs.Image.{log_at};
ghost use Rattle.image_send_entries.specs.Store.{ends_run, pairs_bytes};

use image_store_check::columns::OFFSETS;

// Whether entry i is the last of its run, of the first n.
fn ends_run(s: &[u8], base: usize, n: usize, i: usize) -> bool
    requires { (i < n) × (n ≤ 1024) × (base + 174080 ≤ length s.now) }
    ensures { result ≡ ends_run s.now base n i }
{
    if i + 1 < n {
        return num::get8(s, base + i * 8) != num::get8(s, base + (i + 1) * 8);
    }
    true
}

// How many pairs the first n entries make.
pub fn pairs_of(s: &[u8], base: usize, n: usize) -> usize
    requires { (n ≤ 1024) × (base + 174080 ≤ length s.now) }
    ensures { (result ≡ length (epoch_ends (log_at s.now base n))) × (result ≤ n) }
{
    let mut pairs: usize = 0;
    for i in 0..n {
        if ends_run(s, base, n, i) {
            pairs += 1;
        }
    }
    pairs
}

// The pairs, 16 bytes each.
pub fn put_pairs(out: &mut [u8], at: usize, s: &[u8], base: usize, n: usize)
    requires { (n ≤ 1024) × (base + 174080 ≤ length s.now) × (at + 16 * length (epoch_ends (log_at s.now base n)) ≤ length out.old) }
    ensures { out.new ≡ sets out.old at (pairs_bytes (epoch_ends (log_at s.now base n))) }
{
    let mut p = at;
    for i in 0..n {
        if ends_run(s, base, n, i) {
            let epoch = num::get8(s, base + i * 8);
            let offset = num::get8(s, base + OFFSETS + i * 8);
            num::put8(out, p, epoch);
            num::put8(out, p + 8, offset);
            p += 16;
        }
    }
}

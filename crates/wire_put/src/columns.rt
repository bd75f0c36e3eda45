// Internal: the entries of 22 from columns, as a log keeps them (specs/Rows.antt): whether they fit, their size, and the
// store of all of them.
ghost use Rattle.std.specs.Prelude.{◌≡◌, true, ◌+◌, ◌*◌, ◌≤◌, length};
ghost use Rattle.std.proofs.lemmas.List.Edits.{sets};
ghost use Rattle.wire_put.specs.Rows.{long_enough, row_fits, rows_bytes, rows_fit, rows_size};

use crate::entry::put_entry;
use crate::fit::{op_fits, op_size};
use spec::{Epoch, Offset};

// Internal: whether the layout carries an operation.
pub fn row_fits(code: u8, len: u8) -> bool
    ensures { result ≡ row_fits code len }
{
    if op_fits(code == 1, len as usize) {
        return len <= 32;
    }
    false
}

// Internal: whether the layout carries each of the first n operations.
pub fn rows_fit(codes: &[u8], lens: &[u8], n: usize) -> bool
    requires { (n ≤ length codes.now) × (n ≤ length lens.now) }
    ensures { result ≡ rows_fit codes.now lens.now n 0 }
{
    for i in 0..n {
        if !row_fits(codes[i], lens[i]) {
            return false;
        }
    }
    true
}

// Internal: the bytes that the first n entries take.
pub fn rows_size(codes: &[u8], lens: &[u8], n: usize) -> usize
    requires { (n ≤ length codes.now) × (n ≤ length lens.now) × (n ≤ 256) × (rows_fit codes.now lens.now n 0 ≡ true) }
    ensures { result ≡ rows_size codes.now lens.now n 0 }
{
    let mut total: usize = 0;
    for i in 0..n {
        let len = lens[i] as usize;
        total += 16 + op_size(codes[i] == 1, len);
    }
    total
}

// Internal: the first n entries, one after the other.
pub fn put_rows(
    out: &mut [u8],
    at: usize,
    epochs: &[u64],
    offsets: &[u64],
    codes: &[u8],
    ids: &[u64],
    lens: &[u8],
    bits: &[u32],
    n: usize,
)
    requires { (at + rows_size codes.now lens.now n 0 ≤ length out.old) × (long_enough epochs.now offsets.now codes.now ids.now lens.now bits.now n ≡ true) × (rows_fit codes.now lens.now n 0 ≡ true) × (n ≤ 256) }
    ensures { out.new ≡ sets out.old at (rows_bytes epochs.now offsets.now codes.now ids.now lens.now bits.now n 0) }
{
    let mut p = at;
    for i in 0..n {
        let len = lens[i] as usize;
        let from = 32 * i;
        let upsert = codes[i] == 1;
        let epoch = Epoch(epochs[i]);
        let offset = Offset(offsets[i]);
        put_entry(
            out,
            p,
            epoch,
            offset,
            upsert,
            ids[i],
            &bits[from..from + len],
        );
        p += 16 + op_size(upsert, len);
    }
}

// Internal: whether every column has n entries, the bits 32 for each.
pub fn long_enough(
    epochs: &[u64],
    offsets: &[u64],
    codes: &[u8],
    ids: &[u64],
    lens: &[u8],
    bits: &[u32],
    n: usize,
) -> bool
    requires { n ≤ 256 }
    ensures { result ≡ long_enough epochs.now offsets.now codes.now ids.now lens.now bits.now n }
{
    if epochs.len() < n {
        return false;
    }
    if offsets.len() < n {
        return false;
    }
    if codes.len() < n {
        return false;
    }
    if ids.len() < n {
        return false;
    }
    if lens.len() < n {
        return false;
    }
    32 * n <= bits.len()
}

// Stored entries that follow one another, from their columns straight into a lent output; and which entries of a log go, from an offset on.
ghost use Rattle.std.specs.Prelude.{◌≡◌, ◌+◌, ◌-◌, ◌≤◌, min, max, eqb, length};
ghost use Rattle.std.proofs.lemmas.List.Edits.{sets};
ghost use Rattle.wire_write.specs.Written.{op_size};
ghost use Rattle.wire_write.specs.Rows.{rows_size};
ghost use Rattle.log_store.specs.View.{columns};
ghost use Rattle.node_send_entries.specs.Sent.{entries_sent, Sendable};

use crate::entry::put_entry_at;
use spec::Offset;

// Internal: the bytes that an entry takes.
pub fn entry_size(code: u8, length: u8) -> usize
    ensures { (result ≡ 16 + op_size (eqb code 1) length) × (result ≤ 1046) }
{
    if code == 1 {
        return 26 + 4 * (length as usize);
    }
    25
}

// Internal: the bytes that the entries at the places from `from` up to `end` take.
pub fn entries_size(codes: &[u8], lengths: &[u8], from: usize, end: usize) -> usize
    requires { (from ≤ end) × (end ≤ 1024) × (end ≤ length codes.now) × (end ≤ length lengths.now) }
    ensures { (result ≡ rows_size codes.now lengths.now (end - from) from) × (result ≤ 1071104) }
{
    let mut total: usize = 0;
    for i in from..end {
        total += entry_size(codes[i], lengths[i]);
    }
    total
}

// Internal: these entries, one after the other.
pub fn put_entries(
    out: &mut [u8],
    at: usize,
    epochs: &[u64],
    offsets: &[u64],
    ids: &[u64],
    codes: &[u8],
    lengths: &[u8],
    floats: &[f32],
    count: usize,
    from: usize,
    end: usize,
)
    requires { (Sendable (columns epochs.now offsets.now ids.now codes.now lengths.now floats.now) count)
        × (from ≤ end) × (end ≤ count) × (at + rows_size codes.now lengths.now (end - from) from ≤ length out.old) }
    ensures { out.new ≡ sets out.old at (entries_sent (columns epochs.now offsets.now ids.now codes.now lengths.now floats.now) (end - from) from) }
{
    let mut p = at;
    for i in from..end {
        put_entry_at(
            out, p, epochs, offsets, ids, codes, lengths, floats, count, i,
        );
        p += entry_size(codes[i], lengths[i]);
    }
}

// Internal: the place of an offset, of which the first is 1; the end of the log where the offset lies behind it.
pub fn place_of(offset: Offset, count: usize) -> usize
    ensures { result ≡ min (max offset.0 1 - 1) count }
{
    let at = offset.0.saturating_sub(1);
    at.min(count as u64) as usize
}

// Internal: how many entries go, of so many that are left.
pub fn up_to(limit: usize, rest: usize) -> usize
    ensures { result ≡ min limit rest }
{
    limit.min(rest)
}

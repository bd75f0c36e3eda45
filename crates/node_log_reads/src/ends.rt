// The epoch table of a replica's log (paper 01, 'The log'; shard.rs, epoch_ends).
ghost use Rattle.std.specs.Prelude.{◌≡◌, ◌++◌, ◌≤◌, length, take, drop};
ghost use Rattle.log_store.specs.View.{columns};
ghost use Rattle.log_store.specs.Store.{lent};
ghost use Rattle.node_log_reads.specs.Ends.{EndsAnswered};

use crate::Refusal;
use log_calls::fits::lent_fits;

// The first n numbers of a column, into another from its start; what lies past them stays as it was.
fn copy_first(out: &mut [u64], from: &[u64], n: usize)
    requires { (n ≤ length out.old) × (n ≤ length from.now) }
    ensures { out.new ≡ take n from.now ++ drop n out.old }
{
    out[..n].copy_from_slice(&from[..n]);
}

// For each run of equal epochs of the log its epoch, into one lent column, and its last offset, into another; the room is that of the
// shorter. Answers how many pairs the table has; 24, then 23 if the room is short of the table. A refusal writes nothing.
pub fn epoch_ends(
    epochs: &[u64],
    offsets: &[u64],
    ids: &[u64],
    codes: &[u8],
    lengths: &[u8],
    floats: &[f32],
    keys: &[u64],
    places: &[u64],
    count: usize,
    stored: usize,
    froms: &mut [u64],
    ends: &mut [u64],
) -> Result<usize, Refusal>
    ensures { EndsAnswered (lent (columns epochs.now offsets.now ids.now codes.now lengths.now floats.now)
        keys.now places.now count stored)
        froms.old froms.new ends.old ends.new result }
{
    if !lent_fits(
        epochs, offsets, ids, codes, lengths, floats, keys, places, count, stored,
    ) {
        return Err(Refusal::Malformed);
    }
    let mut each = [0u64; 1024];
    let mut last = [0u64; 1024];
    let n = log_store::align::epoch_ends(epochs, offsets, count, &mut each, &mut last);
    if froms.len() < n {
        return Err(Refusal::NoRoom);
    }
    if ends.len() < n {
        return Err(Refusal::NoRoom);
    }
    copy_first(froms, &each, n);
    copy_first(ends, &last, n);
    Ok(n)
}

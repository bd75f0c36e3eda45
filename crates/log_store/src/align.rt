// Alignment (paper 01, 'The log'; shard.rs, adopt, epoch_ends). An epoch table comes in two columns of `pairs` pairs:
// `froms`, the epochs, and `ends`, the last offset written in each. Internal: callers have proved what is required.

ghost use Rattle.std.specs.Prelude.{◌≡◌, ℕ, ◌-◌, ◌≤◌, ◌<◌, ltb, eqb, length, get_or};
ghost use Rattle.spec.specs.Lists.{◌and◌};
ghost use Rattle.log_store.specs.Align.{table_of, AgreesAt, KeptOf, EndsOf};

use spec::Offset;

// Whether an entry of this epoch and offset stands within `end`, under the epoch of the first pair with end at or above it.
fn agrees(epoch: u64, offset: u64, end: Offset, froms: &[u64], ends: &[u64], pairs: usize) -> bool
    requires { (pairs ≤ length froms.now) × (pairs ≤ length ends.now) }
    ensures { AgreesAt end.0 (table_of froms.now ends.now pairs) epoch offset result }
{
    if end.0 < offset {
        return false;
    }
    let at = super::table::place(ends, pairs, offset);
    super::table::is_at(froms, pairs, at, epoch)
}

// How many leading entries agree.
pub fn kept(
    epochs: &[u64],
    offsets: &[u64],
    count: usize,
    end: Offset,
    froms: &[u64],
    ends: &[u64],
    pairs: usize,
) -> usize
    requires { (count ≤ length epochs.now) × (count ≤ length offsets.now) × (pairs ≤ length froms.now) × (pairs ≤ length ends.now) }
    ensures { KeptOf epochs.now offsets.now count end.0 (table_of froms.now ends.now pairs) result }
{
    for i in 0..count {
        if !agrees(epochs[i], offsets[i], end, froms, ends, pairs) {
            return i;
        }
    }
    count
}

// Whether the last of the first n numbers is `x`.
fn is_last(column: &[u64], n: usize, x: u64) -> bool
    requires { n ≤ length column.now }
    ensures { result ≡ (ltb 0 n and eqb (get_or column.now (n - 1) 0) x) }
{
    if 0 < n {
        return column[n - 1] == x;
    }
    false
}

// shard.rs, epoch_ends: for each run of equal epochs of the first `count` entries its epoch and its last offset, into two
// lent columns. Answers how many pairs there are; the columns' other places are free.
pub fn epoch_ends(
    epochs: &[u64],
    offsets: &[u64],
    count: usize,
    froms: &mut [u64],
    ends: &mut [u64],
) -> usize
    requires { (count ≤ length epochs.now) × (count ≤ length offsets.now) × (count ≤ length froms.old) × (count ≤ length ends.old) }
    ensures { (result ≤ count) × EndsOf epochs.now offsets.now count (table_of froms.new ends.new result) }
{
    let mut n: usize = 0;
    for i in 0..count {
        if is_last(froms, n, epochs[i]) {
            ends[n - 1] = offsets[i];
        } else {
            froms[n] = epochs[i];
            ends[n] = offsets[i];
            n += 1;
        }
    }
    n
}

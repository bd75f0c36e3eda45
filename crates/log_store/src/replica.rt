// One replica over its lent store (paper 01, 'The log'; shard.rs, ShardReplica): an entry pushed, with the vector table
// kept in step. Internal: the store has been tested (24), and there is room.

ghost use Rattle.std.specs.Prelude.{◌≡◌, true, ℕ, ◌+◌, ◌≤◌, ◌<◌, length};
ghost use Rattle.log_store.specs.View.{columns, op_from};
ghost use Rattle.log_store.specs.Store.{lent, Sized, Storable, Pushed, Arrived, well_formed_store};
ghost use Rattle.log_store.specs.Align.{table_of, Aligned};

use spec::{Epoch, Offset};

// shard.rs, Stored: what became of an entry that arrived; Full where it would be number 1,025 (23).
#[derive(Clone, Copy)]
pub enum Outcome {
    Through(Offset),
    Gap(Offset),
    Stale(Epoch),
    Full,
}

// The outcome, with how many entries the log and how many rows the table has then.
#[derive(Clone, Copy)]
pub struct Taken {
    pub outcome: Outcome,
    pub count: usize,
    pub stored: usize,
}

// shard.rs, append and the taken arm of store: the entry at the next offset, and its operation applied to the table.
// Answers how many rows the table has then.
pub fn push(
    epochs: &mut [u64],
    offsets: &mut [u64],
    ids: &mut [u64],
    codes: &mut [u8],
    lengths: &mut [u8],
    floats: &mut [f32],
    keys: &mut [u64],
    places: &mut [u64],
    count: usize,
    stored: usize,
    epoch: Epoch,
    code: u8,
    id: u64,
    bits: &[u32],
) -> usize
    requires { (Sized (lent (columns epochs.old offsets.old ids.old codes.old lengths.old floats.old) keys.old places.old count stored))
        × (well_formed_store (lent (columns epochs.old offsets.old ids.old codes.old lengths.old floats.old) keys.old places.old count stored) ≡ true)
        × (count < 1024) × Storable code bits.now }
    ensures { Pushed
        (lent (columns epochs.old offsets.old ids.old codes.old lengths.old floats.old)
        keys.old places.old count stored)
        (lent (columns epochs.new offsets.new ids.new codes.new lengths.new floats.new)
        keys.new places.new (count + 1) result)
        (record { epoch = epoch.0; offset = count + 1; op = op_from code id bits.now }) }
{
    super::log::write_entry(
        epochs, offsets, ids, codes, lengths, floats, count, epoch, code, id, bits,
    );
    if code == 1 {
        let offset = Offset((count + 1) as u64);
        return super::table::set_row(keys, places, stored, id, offset);
    }
    super::table::drop_row(keys, places, stored, id)
}

// shard.rs, store: an entry sent by the primary of `epoch`, to a replica at `own`. The entry's own epoch is `under`: that
// of the message for a Replicate, its own for one of a CopyShard.
pub fn store(
    epochs: &mut [u64],
    offsets: &mut [u64],
    ids: &mut [u64],
    codes: &mut [u8],
    lengths: &mut [u8],
    floats: &mut [f32],
    keys: &mut [u64],
    places: &mut [u64],
    count: usize,
    stored: usize,
    own: Epoch,
    epoch: Epoch,
    under: Epoch,
    offset: Offset,
    code: u8,
    id: u64,
    bits: &[u32],
) -> Taken
    requires { (Sized (lent (columns epochs.old offsets.old ids.old codes.old lengths.old floats.old) keys.old places.old count stored))
        × (well_formed_store (lent (columns epochs.old offsets.old ids.old codes.old lengths.old floats.old) keys.old places.old count stored) ≡ true)
        × Storable code bits.now }
    ensures { Arrived own.0 epoch.0 (record { epoch = under.0; offset = offset.0; op = op_from code id bits.now })
        (lent (columns epochs.old offsets.old ids.old codes.old lengths.old floats.old)
        keys.old places.old count stored)
        (lent (columns epochs.new offsets.new ids.new codes.new lengths.new floats.new)
        keys.new places.new result.count result.stored)
        result.outcome }
{
    if epoch.0 != own.0 {
        return Taken {
            outcome: Outcome::Stale(own),
            count,
            stored,
        };
    }
    let next = (count + 1) as u64;
    let o = offset.0;
    if o < next {
        return Taken {
            outcome: Outcome::Through(Offset(count as u64)),
            count,
            stored,
        };
    }
    if next < o {
        return Taken {
            outcome: Outcome::Gap(Offset(next)),
            count,
            stored,
        };
    }
    if count == 1024 {
        return Taken {
            outcome: Outcome::Full,
            count,
            stored,
        };
    }
    let rows = push(
        epochs, offsets, ids, codes, lengths, floats, keys, places, count, stored, under, code, id,
        bits,
    );
    Taken {
        outcome: Outcome::Through(Offset(next)),
        count: count + 1,
        stored: rows,
    }
}

// shard.rs, adopt: the own epoch is newer, or the log is kept up to an offset.
#[derive(Clone, Copy)]
pub enum Adoption {
    Older(Epoch),
    Kept(Offset),
}

// The answer, with how many entries the log and how many rows the table has then.
#[derive(Clone, Copy)]
pub struct Adopted {
    pub answer: Adoption,
    pub count: usize,
    pub stored: usize,
}

// shard.rs, adopt: a new epoch announced by its primary, with its last offset and its epoch table. The longest prefix of
// the log that agrees is kept; where the log is cut the vector table is played anew.
pub fn adopt(
    epochs: &[u64],
    offsets: &[u64],
    ids: &[u64],
    codes: &[u8],
    lengths: &[u8],
    floats: &[f32],
    keys: &mut [u64],
    places: &mut [u64],
    count: usize,
    stored: usize,
    own: Epoch,
    epoch: Epoch,
    end: Offset,
    froms: &[u64],
    ends: &[u64],
    pairs: usize,
) -> Adopted
    requires { (Sized (lent (columns epochs.now offsets.now ids.now codes.now lengths.now floats.now) keys.old places.old count stored))
        × (well_formed_store (lent (columns epochs.now offsets.now ids.now codes.now lengths.now floats.now) keys.old places.old count stored) ≡ true)
        × (pairs ≤ length froms.now) × (pairs ≤ length ends.now) }
    ensures { Aligned own.0 epoch.0 end.0 (table_of froms.now ends.now pairs)
        (lent (columns epochs.now offsets.now ids.now codes.now lengths.now floats.now)
        keys.old places.old count stored)
        (lent (columns epochs.now offsets.now ids.now codes.now lengths.now floats.now)
        keys.new places.new result.count result.stored)
        result.answer }
{
    if epoch.0 < own.0 {
        return Adopted {
            answer: Adoption::Older(own),
            count,
            stored,
        };
    }
    if epoch.0 == own.0 {
        return Adopted {
            answer: Adoption::Kept(Offset(count as u64)),
            count,
            stored,
        };
    }
    let kept = super::align::kept(epochs, offsets, count, end, froms, ends, pairs);
    if kept < count {
        let rows = super::table::rebuild(offsets, ids, codes, keys, places, kept);
        return Adopted {
            answer: Adoption::Kept(Offset(kept as u64)),
            count: kept,
            stored: rows,
        };
    }
    Adopted {
        answer: Adoption::Kept(Offset(count as u64)),
        count,
        stored,
    }
}

// 21: an epoch table of a message, and the alignment by it (paper 01, 'The log'; shard.rs, adopt). Internal: the message was
// read, and the store has been tested.
ghost use Rattle.std.specs.Prelude.{◌≡◌, true, length};
ghost use Rattle.log_store.specs.View.{columns};
ghost use Rattle.log_store.specs.Store.{lent, Sized, well_formed_store};
ghost use Rattle.log_store.specs.Align.{table_of, Aligned};
ghost use Rattle.log_domain.specs.Parts.{table_in, TableThere};

use log_store::replica::{Adopted, adopt};
use spec::{Epoch, Offset};
use wire_read::Part;
use wire_read::parts::end_at;

// The pairs of a table, into two columns of 1,024; their other places are free.
fn read_table(s: &[u8], p: Part, froms: &mut [u64], ends: &mut [u64])
    requires { (TableThere s.now p) × (length froms.old ≡ 1024) × (length ends.old ≡ 1024) }
    ensures { (length froms.new ≡ 1024) × (length ends.new ≡ 1024)
        × (table_of froms.new ends.new p.len ≡ table_in s.now p) }
{
    let n = p.len;
    for i in 0..n {
        let pair = end_at(s, p, i);
        froms[i] = pair.epoch.0;
        ends[i] = pair.end.0;
    }
}

// A NewEpoch's table, adopted.
pub fn adopt_table(
    epochs: &[u64],
    offsets: &[u64],
    ids: &[u64],
    codes: &[u8],
    lengths: &[u8],
    floats: &[f32],
    keys: &mut [u64],
    places: &mut [u64],
    count: usize,
    stored: usize,
    own: Epoch,
    epoch: Epoch,
    end: Offset,
    s: &[u8],
    p: Part,
) -> Adopted
    requires { (TableThere s.now p)
        × (Sized (lent (columns epochs.now offsets.now ids.now codes.now lengths.now floats.now) keys.old places.old count stored))
        × (well_formed_store (lent (columns epochs.now offsets.now ids.now codes.now lengths.now floats.now) keys.old places.old count stored) ≡ true) }
    ensures { Aligned own.0 epoch.0 end.0 (table_in s.now p)
        (lent (columns epochs.now offsets.now ids.now codes.now lengths.now floats.now)
        keys.old places.old count stored)
        (lent (columns epochs.now offsets.now ids.now codes.now lengths.now floats.now)
        keys.new places.new result.count result.stored)
        result.answer }
{
    let mut froms = [0u64; 1024];
    let mut ends = [0u64; 1024];
    read_table(s, p, &mut froms, &mut ends);
    let n = p.len;
    adopt(
        epochs, offsets, ids, codes, lengths, floats, keys, places, count, stored, own, epoch, end,
        &froms, &ends, n,
    )
}

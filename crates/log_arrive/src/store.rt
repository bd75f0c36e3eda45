// One entry of a message, stored in a lent store (paper 01, 'Who is turned down', Replicate, CopyShard; shard.rs, store). Internal:
// the message was read, its vector lies in the domain, and the store has been tested.
ghost use Rattle.std.specs.Prelude.{◌≡◌, true, eqb};
ghost use Rattle.spec.specs.Lists.{◌and◌};
ghost use Rattle.spec.specs.Node.Wire.{op_in_domain, stored_op};
ghost use Rattle.log_store.specs.View.{columns};
ghost use Rattle.log_store.specs.Store.{lent, Sized, well_formed_store};
ghost use Rattle.log_arrive.specs.Parts.{op_in, OpThere};
ghost use Rattle.log_arrive.specs.Arrivals.{Arrives};

use crate::ops::read_op;
use log_store::replica::{Outcome, Taken, store};
use spec::{Epoch, Offset};
use wire_read::OpPart;

// Whether an entry would be number 1,025.
fn is_over(count: usize, offset: Offset) -> bool
    ensures { result ≡ (eqb count 1024 and eqb offset.0 1025) }
{
    count == 1024 && offset.0 == 1025
}

// An entry sent by the primary of `epoch`, to a replica at `own`; `under` is the epoch that it is stored under.
pub fn store_under(
    epochs: &mut [u64],
    offsets: &mut [u64],
    ids: &mut [u64],
    codes: &mut [u8],
    lengths: &mut [u8],
    floats: &mut [f32],
    keys: &mut [u64],
    places: &mut [u64],
    count: usize,
    stored: usize,
    own: Epoch,
    epoch: Epoch,
    under: Epoch,
    offset: Offset,
    s: &[u8],
    op: OpPart,
) -> Taken
    requires { (Sized (lent (columns epochs.old offsets.old ids.old codes.old lengths.old floats.old) keys.old places.old count stored))
        × (well_formed_store (lent (columns epochs.old offsets.old ids.old codes.old lengths.old floats.old) keys.old places.old count stored) ≡ true)
        × (OpThere s.now op) × (op_in_domain (op_in s.now op) ≡ true) }
    ensures { Arrives own.0 epoch.0 (record { epoch = under.0; offset = offset.0; op = stored_op (op_in s.now op) })
        (lent (columns epochs.old offsets.old ids.old codes.old lengths.old floats.old)
        keys.old places.old count stored)
        (lent (columns epochs.new offsets.new ids.new codes.new lengths.new floats.new)
        keys.new places.new result.count result.stored)
        result.outcome }
{
    if epoch.0 != own.0 {
        return Taken {
            outcome: Outcome::Stale(own),
            count: count,
            stored: stored,
        };
    }
    if is_over(count, offset) {
        return Taken {
            outcome: Outcome::Full,
            count: count,
            stored: stored,
        };
    }
    let mut column = [0u32; 32];
    let o = read_op(s, op, &mut column);
    let n = o.n;
    store(
        epochs,
        offsets,
        ids,
        codes,
        lengths,
        floats,
        keys,
        places,
        count,
        stored,
        own,
        epoch,
        under,
        offset,
        o.code,
        o.id,
        &column[..n],
    )
}

// 20: the one entry of a Replicate, stored under the message's epoch.
pub fn store_op(
    epochs: &mut [u64],
    offsets: &mut [u64],
    ids: &mut [u64],
    codes: &mut [u8],
    lengths: &mut [u8],
    floats: &mut [f32],
    keys: &mut [u64],
    places: &mut [u64],
    count: usize,
    stored: usize,
    own: Epoch,
    epoch: Epoch,
    offset: Offset,
    s: &[u8],
    op: OpPart,
) -> Taken
    requires { (Sized (lent (columns epochs.old offsets.old ids.old codes.old lengths.old floats.old) keys.old places.old count stored))
        × (well_formed_store (lent (columns epochs.old offsets.old ids.old codes.old lengths.old floats.old) keys.old places.old count stored) ≡ true)
        × (OpThere s.now op) × (op_in_domain (op_in s.now op) ≡ true) }
    ensures { Arrives own.0 epoch.0 (record { epoch = epoch.0; offset = offset.0; op = stored_op (op_in s.now op) })
        (lent (columns epochs.old offsets.old ids.old codes.old lengths.old floats.old)
        keys.old places.old count stored)
        (lent (columns epochs.new offsets.new ids.new codes.new lengths.new floats.new)
        keys.new places.new result.count result.stored)
        result.outcome }
{
    let under = epoch;
    store_under(
        epochs, offsets, ids, codes, lengths, floats, keys, places, count, stored, own, epoch,
        under, offset, s, op,
    )
}

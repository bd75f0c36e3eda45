// 22: a batch of entries, each stored under its own epoch (paper 01, 'Who is turned down', CopyShard; node.rs, on_copy). Internal: the
// message was read, its vectors lie in the domain, and the store has been tested.
ghost use Rattle.std.specs.Prelude.{◌≡◌, true, map};
ghost use Rattle.spec.specs.Lists.{every};
ghost use Rattle.spec.specs.Node.Wire.{entry_in_domain, stored_entry};
ghost use Rattle.log_store.specs.View.{columns};
ghost use Rattle.log_store.specs.Store.{lent, Sized, well_formed_store};
ghost use Rattle.log_arrive.specs.Parts.{entries_in, EntriesThere};
ghost use Rattle.log_arrive.specs.Arrivals.{HasRoom, StoresAll, Copies};

use crate::store::store_under;
use log_domain::growth::grows_to;
use log_store::replica::{Outcome, Taken};
use spec::{Epoch, Offset};
use wire_read::Part;
use wire_read::parts::entry_at;

// How many entries the log and how many rows the table has.
#[derive(Clone, Copy)]
pub struct Stock {
    pub count: usize,
    pub stored: usize,
}

// The entries of a batch at the own epoch, one after the other; there is room for them.
fn store_all(
    epochs: &mut [u64],
    offsets: &mut [u64],
    ids: &mut [u64],
    codes: &mut [u8],
    lengths: &mut [u8],
    floats: &mut [f32],
    keys: &mut [u64],
    places: &mut [u64],
    count: usize,
    stored: usize,
    own: Epoch,
    s: &[u8],
    p: Part,
) -> Stock
    requires { (Sized (lent (columns epochs.old offsets.old ids.old codes.old lengths.old floats.old) keys.old places.old count stored))
        × (well_formed_store (lent (columns epochs.old offsets.old ids.old codes.old lengths.old floats.old) keys.old places.old count stored) ≡ true)
        × (EntriesThere s.now p) × (every entry_in_domain (entries_in s.now p) ≡ true)
        × (HasRoom own.0 (map stored_entry (entries_in s.now p)) (lent (columns epochs.old offsets.old ids.old codes.old lengths.old floats.old) keys.old places.old count stored)) }
    ensures { StoresAll own.0 (map stored_entry (entries_in s.now p))
        (lent (columns epochs.old offsets.old ids.old codes.old lengths.old floats.old)
        keys.old places.old count stored)
        (lent (columns epochs.new offsets.new ids.new codes.new lengths.new floats.new)
        keys.new places.new result.count result.stored) }
{
    let n = p.len;
    let mut at = p.at;
    let mut c = count;
    let mut k = stored;
    for i in 0..n {
        let e = entry_at(s, at);
        let under = e.epoch;
        let offset = e.offset;
        let op = e.op;
        let t = store_under(
            epochs, offsets, ids, codes, lengths, floats, keys, places, c, k, own, own, under,
            offset, s, op,
        );
        c = t.count;
        k = t.stored;
        at = e.next;
    }
    Stock {
        count: c,
        stored: k,
    }
}

// A CopyShard sent by the primary of `epoch`, to a replica at `own`: an empty one is Stored at any epoch; 23 is found before anything is
// stored.
pub fn copy(
    epochs: &mut [u64],
    offsets: &mut [u64],
    ids: &mut [u64],
    codes: &mut [u8],
    lengths: &mut [u8],
    floats: &mut [f32],
    keys: &mut [u64],
    places: &mut [u64],
    count: usize,
    stored: usize,
    own: Epoch,
    epoch: Epoch,
    s: &[u8],
    p: Part,
) -> Taken
    requires { (Sized (lent (columns epochs.old offsets.old ids.old codes.old lengths.old floats.old) keys.old places.old count stored))
        × (well_formed_store (lent (columns epochs.old offsets.old ids.old codes.old lengths.old floats.old) keys.old places.old count stored) ≡ true)
        × (EntriesThere s.now p) × (every entry_in_domain (entries_in s.now p) ≡ true) }
    ensures { Copies own.0 epoch.0 (map stored_entry (entries_in s.now p))
        (lent (columns epochs.old offsets.old ids.old codes.old lengths.old floats.old)
        keys.old places.old count stored)
        (lent (columns epochs.new offsets.new ids.new codes.new lengths.new floats.new)
        keys.new places.new result.count result.stored)
        result.outcome }
{
    if p.len == 0 {
        return Taken {
            outcome: Outcome::Through(Offset(count as u64)),
            count: count,
            stored: stored,
        };
    }
    if epoch.0 != own.0 {
        return Taken {
            outcome: Outcome::Stale(own),
            count: count,
            stored: stored,
        };
    }
    let last = grows_to(s, p, count);
    if 1024 < last {
        return Taken {
            outcome: Outcome::Full,
            count: count,
            stored: stored,
        };
    }
    let t = store_all(
        epochs, offsets, ids, codes, lengths, floats, keys, places, count, stored, own, s, p,
    );
    Taken {
        outcome: Outcome::Through(Offset(last as u64)),
        count: t.count,
        stored: t.stored,
    }
}

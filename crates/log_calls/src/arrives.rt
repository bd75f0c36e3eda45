// Entries that a primary sends (paper 01, 'The log', 'Who is turned down', Replicate, CopyShard; shard.rs, store), over one replica's
// lent store.

ghost use Rattle.std.specs.Prelude.{◌≡◌};
ghost use Rattle.log_store.specs.View.{columns};
ghost use Rattle.log_store.specs.Store.{lent};
ghost use Rattle.log_calls.specs.Calls.{Calls, outcome_as, store_lent, copy_lent};

use super::{Answer, Done};
use log_arrive::domain::{entries_in_domain, op_in_domain};
use log_arrive::store::store_op;
use log_store::replica::Outcome;
use spec::Epoch;
use wire_read::Message;

// Internal: the answer that tells what became of entries.
fn answer_of(o: Outcome) -> Answer
    ensures { result ≡ outcome_as o }
{
    match o {
        Outcome::Through(n) => Answer::Stored(n),
        Outcome::Gap(n) => Answer::Gap(n),
        Outcome::Stale(e) => Answer::StaleEpoch(e),
        Outcome::Full => Answer::Refused(23),
    }
}

// A Replicate message (20 on the wire) to a replica at `own`: 21, 22, 24, then Stored, Gap or StaleEpoch, or 23 for entry 1,025.
pub fn store(
    epochs: &mut [u64],
    offsets: &mut [u64],
    ids: &mut [u64],
    codes: &mut [u8],
    lengths: &mut [u8],
    floats: &mut [f32],
    keys: &mut [u64],
    places: &mut [u64],
    count: usize,
    stored: usize,
    own: Epoch,
    message: &[u8],
) -> Done
    ensures { Calls (store_lent message.now own.0
        (lent (columns epochs.old offsets.old ids.old codes.old lengths.old floats.old)
        keys.old places.old count stored)) own.0
        (lent (columns epochs.old offsets.old ids.old codes.old lengths.old floats.old)
        keys.old places.old count stored)
        (lent (columns epochs.new offsets.new ids.new codes.new lengths.new floats.new)
        keys.new places.new result.count result.stored)
        result }
{
    let read = wire_read::decode(message);
    let Message::Replicate(p) = read else {
        return super::unchanged(Answer::Refused(21), own, count, stored);
    };
    let op = p.op;
    if !op_in_domain(message, op) {
        return super::unchanged(Answer::Refused(22), own, count, stored);
    }
    if !super::fits::lent_fits(
        epochs, offsets, ids, codes, lengths, floats, keys, places, count, stored,
    ) {
        return super::unchanged(Answer::Refused(24), own, count, stored);
    }
    let epoch = p.epoch;
    let offset = p.offset;
    let t = store_op(
        epochs, offsets, ids, codes, lengths, floats, keys, places, count, stored, own, epoch,
        offset, message, op,
    );
    let o = t.outcome;
    let answer = answer_of(o);
    Done {
        answer: answer,
        epoch: own,
        count: t.count,
        stored: t.stored,
    }
}

// A CopyShard message (22 on the wire): 21, 22, 24, then Stored or StaleEpoch; 23, with nothing stored, if an entry would be number
// 1,025.
pub fn copy(
    epochs: &mut [u64],
    offsets: &mut [u64],
    ids: &mut [u64],
    codes: &mut [u8],
    lengths: &mut [u8],
    floats: &mut [f32],
    keys: &mut [u64],
    places: &mut [u64],
    count: usize,
    stored: usize,
    own: Epoch,
    message: &[u8],
) -> Done
    ensures { Calls (copy_lent message.now own.0
        (lent (columns epochs.old offsets.old ids.old codes.old lengths.old floats.old)
        keys.old places.old count stored)) own.0
        (lent (columns epochs.old offsets.old ids.old codes.old lengths.old floats.old)
        keys.old places.old count stored)
        (lent (columns epochs.new offsets.new ids.new codes.new lengths.new floats.new)
        keys.new places.new result.count result.stored)
        result }
{
    let read = wire_read::decode(message);
    let Message::CopyShard(p) = read else {
        return super::unchanged(Answer::Refused(21), own, count, stored);
    };
    let entries = p.entries;
    if !entries_in_domain(message, entries) {
        return super::unchanged(Answer::Refused(22), own, count, stored);
    }
    if !super::fits::lent_fits(
        epochs, offsets, ids, codes, lengths, floats, keys, places, count, stored,
    ) {
        return super::unchanged(Answer::Refused(24), own, count, stored);
    }
    let epoch = p.epoch;
    let t = log_arrive::copy::copy(
        epochs, offsets, ids, codes, lengths, floats, keys, places, count, stored, own, epoch,
        message, entries,
    );
    let o = t.outcome;
    let answer = answer_of(o);
    Done {
        answer: answer,
        epoch: own,
        count: t.count,
        stored: t.stored,
    }
}

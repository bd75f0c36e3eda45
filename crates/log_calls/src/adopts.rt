// A new epoch (paper 01, 'The log'; shard.rs, adopt, promote), over one replica's lent store.

ghost use Rattle.log_store.specs.View.{columns};
ghost use Rattle.log_store.specs.Store.{lent};
ghost use Rattle.log_calls.specs.Calls.{Calls, adopt_lent};

use super::{Answer, Done};
use log_arrive::table::adopt_table;
use spec::{Epoch, Offset};
use wire_read::Message;

// A NewEpoch message (21 on the wire): 21, 24, then StaleEpoch own, or the log is kept as far as it agrees with the table, and the
// replica's epoch is the message's.
pub fn adopt(
    epochs: &[u64],
    offsets: &[u64],
    ids: &[u64],
    codes: &[u8],
    lengths: &[u8],
    floats: &[f32],
    keys: &mut [u64],
    places: &mut [u64],
    count: usize,
    stored: usize,
    own: Epoch,
    message: &[u8],
) -> Done
    ensures { Calls (adopt_lent message.now own.0
        (lent (columns epochs.now offsets.now ids.now codes.now lengths.now floats.now)
        keys.old places.old count stored)) own.0
        (lent (columns epochs.now offsets.now ids.now codes.now lengths.now floats.now)
        keys.old places.old count stored)
        (lent (columns epochs.now offsets.now ids.now codes.now lengths.now floats.now)
        keys.new places.new result.count result.stored)
        result }
{
    let read = wire_read::decode(message);
    let Message::NewEpoch(p) = read else {
        return super::unchanged(Answer::Refused(21), own, count, stored);
    };
    if !super::fits::lent_fits(
        epochs, offsets, ids, codes, lengths, floats, keys, places, count, stored,
    ) {
        return super::unchanged(Answer::Refused(24), own, count, stored);
    }
    let epoch = p.epoch;
    if epoch.0 < own.0 {
        return super::unchanged(Answer::StaleEpoch(own), own, count, stored);
    }
    let end = p.end;
    let table = p.table;
    let a = adopt_table(
        epochs, offsets, ids, codes, lengths, floats, keys, places, count, stored, own, epoch, end,
        message, table,
    );
    let kept = a.count;
    Done {
        answer: Answer::Adopted(Offset(kept as u64)),
        epoch: epoch,
        count: kept,
        stored: a.stored,
    }
}

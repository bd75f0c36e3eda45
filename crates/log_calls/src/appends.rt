// A new write (paper 01, 'The log'; shard.rs, append): the exported append over one replica's lent store.

ghost use Rattle.log_store.specs.View.{columns};
ghost use Rattle.log_store.specs.Store.{lent};
ghost use Rattle.log_calls.specs.Calls.{Calls, append_lent};

use super::{Answer, Done};
use log_arrive::domain::op_in_domain;
use log_arrive::ops::read_op;
use log_store::replica::push;
use spec::{Epoch, Offset};
use wire_read::Message;

// The operation of a Write message (23 on the wire), appended under `own`: 21, 22, 24, 23 at 1,024 entries, else its offset.
pub fn append(
    epochs: &mut [u64],
    offsets: &mut [u64],
    ids: &mut [u64],
    codes: &mut [u8],
    lengths: &mut [u8],
    floats: &mut [f32],
    keys: &mut [u64],
    places: &mut [u64],
    count: usize,
    stored: usize,
    own: Epoch,
    message: &[u8],
) -> Done
    ensures { Calls (append_lent message.now own.0
        (lent (columns epochs.old offsets.old ids.old codes.old lengths.old floats.old)
        keys.old places.old count stored)) own.0
        (lent (columns epochs.old offsets.old ids.old codes.old lengths.old floats.old)
        keys.old places.old count stored)
        (lent (columns epochs.new offsets.new ids.new codes.new lengths.new floats.new)
        keys.new places.new result.count result.stored)
        result }
{
    let read = wire_read::decode(message);
    let Message::Write(p) = read else {
        return super::unchanged(Answer::Refused(21), own, count, stored);
    };
    let op = p.op;
    if !op_in_domain(message, op) {
        return super::unchanged(Answer::Refused(22), own, count, stored);
    }
    if !super::fits::lent_fits(
        epochs, offsets, ids, codes, lengths, floats, keys, places, count, stored,
    ) {
        return super::unchanged(Answer::Refused(24), own, count, stored);
    }
    if count == 1024 {
        return super::unchanged(Answer::Refused(23), own, count, stored);
    }
    let mut column = [0u32; 32];
    let o = read_op(message, op, &mut column);
    let n = o.n;
    let rows = push(
        epochs,
        offsets,
        ids,
        codes,
        lengths,
        floats,
        keys,
        places,
        count,
        stored,
        own,
        o.code,
        o.id,
        &column[..n],
    );
    Done {
        answer: Answer::Appended(Offset((count + 1) as u64)),
        epoch: own,
        count: count + 1,
        stored: rows,
    }
}

// Entries of a replica's log as they are sent (paper 01, 'Bytes on the wire', 22; shard.rs, entries_from).
ghost use Rattle.std.specs.Prelude.{length};
ghost use Rattle.log_store.specs.View.{columns};
ghost use Rattle.log_store.specs.Store.{lent};
ghost use Rattle.node_log_reads.specs.Entries.{entries_lent, Sent};

use log_calls::fits::lent_fits;
use node_send::Request;
use node_send::entries::{place_of, up_to};
use spec::{Epoch, Offset};
use wire_write::fit::text_fits;

// Up to `limit` entries from an offset on, as a CopyShard under this key and epoch, into a lent message. 21 a name that no message carries,
// 24, then 23 if they are more than the 256 of a message, or the output is short of the message; a refusal writes nothing.
pub fn entries_from(
    epochs: &[u64],
    offsets: &[u64],
    ids: &[u64],
    codes: &[u8],
    lengths: &[u8],
    floats: &[f32],
    keys: &[u64],
    places: &[u64],
    count: usize,
    stored: usize,
    name: &[u8],
    shard: u32,
    epoch: Epoch,
    first: Offset,
    limit: usize,
    out: &mut [u8],
) -> Request
    ensures { Sent (entries_lent (lent (columns epochs.now offsets.now ids.now codes.now lengths.now floats.now)
        keys.now places.now count stored) name.now shard epoch.0 first.0 limit (length out.old))
        out.old out.new result }
{
    if !text_fits(name, 32) {
        return Request::Refused(21);
    }
    if !lent_fits(
        epochs, offsets, ids, codes, lengths, floats, keys, places, count, stored,
    ) {
        return Request::Refused(24);
    }
    let from = place_of(first, count);
    let n = up_to(limit, count - from);
    if 256 < n {
        return Request::Refused(23);
    }
    node_send::entries::entries_from(
        out, name, shard, epoch, epochs, offsets, ids, codes, lengths, floats, count, first, n,
    )
}

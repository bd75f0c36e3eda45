// CopyShard (22): stored entries that follow one another, from their columns straight into a lent message (shard.rs, entries_from). The stores
// of the entries are crate `node_send_entries`.
ghost use Rattle.std.proofs.Math.Option.{some};
ghost use Rattle.std.specs.Prelude.{◌+◌, ◌-◌, ◌≤◌, length};
ghost use Rattle.spec.specs.Log.{entries_from};
ghost use Rattle.spec.specs.Node.Worker.{copy_of};
ghost use Rattle.log_store.specs.View.{columns, log_of};
ghost use Rattle.node_send.specs.Sent.{entries_at, Sendable};
ghost use Rattle.node_send.specs.Requested.{key_named, Requested};

use crate::Request;
use node_send_entries::entries::{entries_size, put_entries};
pub use node_send_entries::entries::{place_of, up_to};
use spec::{Epoch, Offset};
use wire_write::put::put_head;

// Internal: 22 with these entries, at most 256, under the primary's epoch.
fn write_copy(
    out: &mut [u8],
    name: &[u8],
    shard: u32,
    epoch: Epoch,
    epochs: &[u64],
    offsets: &[u64],
    ids: &[u64],
    codes: &[u8],
    lengths: &[u8],
    floats: &[f32],
    count: usize,
    from: usize,
    end: usize,
) -> Request
    requires { (Sendable (columns epochs.now offsets.now ids.now codes.now lengths.now floats.now) count)
        × (from ≤ end) × (end ≤ count) × (end ≤ from + 256) × (length name.now ≤ 32) }
    ensures { Requested (some (copy_of (key_named name.now shard) epoch.0 (entries_at (columns epochs.now offsets.now ids.now codes.now lengths.now floats.now) (end - from) from)))
        out.old out.new result }
{
    let size = 48 + entries_size(codes, lengths, from, end);
    if out.len() < size {
        return Request::Refused(23);
    }
    let n = end - from;
    put_head(out, 0x22, name, shard, epoch.0);
    num::put2(out, 46, n as u16);
    put_entries(
        out, 48, epochs, offsets, ids, codes, lengths, floats, count, from, end,
    );
    Request::Written(size)
}

// Internal: shard.rs, entries_from: up to `limit` entries from an offset on, as a CopyShard.
pub fn entries_from(
    out: &mut [u8],
    name: &[u8],
    shard: u32,
    epoch: Epoch,
    epochs: &[u64],
    offsets: &[u64],
    ids: &[u64],
    codes: &[u8],
    lengths: &[u8],
    floats: &[f32],
    count: usize,
    first: Offset,
    limit: usize,
) -> Request
    requires { (Sendable (columns epochs.now offsets.now ids.now codes.now lengths.now floats.now) count)
        × (limit ≤ 256) × (length name.now ≤ 32) }
    ensures { Requested (some (copy_of (key_named name.now shard) epoch.0 (entries_from (log_of (columns epochs.now offsets.now ids.now codes.now lengths.now floats.now) count) first.0 limit)))
        out.old out.new result }
{
    let from = place_of(first, count);
    let n = up_to(limit, count - from);
    write_copy(
        out,
        name,
        shard,
        epoch,
        epochs,
        offsets,
        ids,
        codes,
        lengths,
        floats,
        count,
        from,
        from + n,
    )
}

// What a primary's worker sends (paper 01, 'The node', the worker's step; 'Rules of a run', Messages; node.rs, replicate_to), written from the
// bytes of the store of one held shard into a lent output, whole or not at all. The store begins at `base` and has passed the test (24).
// Internal.
#![tactic(auto)]

ghost use Rattle.std.specs.Prelude.{◌≡◌, ◌+◌, ◌-◌, ◌≤◌, ◌<◌, length};
ghost use Rattle.std.proofs.Math.Option.{some};
ghost use Rattle.spec.specs.Log.{epoch_ends, entries_from};
ghost use Rattle.spec.specs.Node.Worker as worker;
ghost use Rattle.log_store.specs.View.{entry_of, log_of};
ghost use Rattle.image_store.specs.Image.{log_at};
ghost use Rattle.node_send_entries.specs.Sent.{entries_at, key_named};
ghost use Rattle.node_send.specs.Requested.{Requested};
ghost use Rattle.image_send_entries.specs.Store.{store_columns, Sends};

use image_send_entries::entries::{entries_size, put_entries, put_op};
use image_send_entries::table::{pairs_of, put_pairs};
use image_store_check::columns::OFFSETS;
use node_send::Request;
use node_shard::rows::both;
use spec::Metric;
use wire_write::put::{put_byte, put_head};
use wire_write::table::metric_code;

// NewEpoch (21): the primary's epoch, its last offset when it became primary, the epochs of the first n entries, and the metric.
pub fn write_align(
    out: &mut [u8],
    name: &[u8],
    shard: u32,
    epoch: u64,
    end: u64,
    s: &[u8],
    base: usize,
    n: usize,
    metric: Metric,
) -> Request
    requires { (length name.now ≤ 32) × (n ≤ 1024) × (base + 174080 ≤ length s.now) }
    ensures { Requested (some (worker.new_epoch_message (record { key = key_named name.now shard; epoch = epoch; end = end; table = epoch_ends (log_at s.now base n); metric = metric })))
        out.old out.new result }
{
    let pairs = pairs_of(s, base, n);
    let size = 57 + 16 * pairs;
    if out.len() < size {
        return Request::Refused(23);
    }
    put_head(out, 0x21, name, shard, epoch);
    num::put8(out, 46, end);
    num::put2(out, 54, pairs as u16);
    put_pairs(out, 56, s, base, n);
    put_byte(out, 56 + 16 * pairs, metric_code(metric));
    Request::Written(size)
}

// Replicate (20) with the entry at place i, under the primary's epoch; its own is not sent.
fn write_lone(
    out: &mut [u8],
    name: &[u8],
    shard: u32,
    epoch: u64,
    s: &[u8],
    base: usize,
    count: usize,
    i: usize,
) -> Request
    requires { Sends s.now base count × (i < count) × (length name.now ≤ 32) }
    ensures { Requested (some (worker.lone_of (key_named name.now shard) epoch (entry_of (store_columns s.now base count) i)))
        out.old out.new result }
{
    let size = 38 + entries_size(s, base, i, i + 1);
    if out.len() < size {
        return Request::Refused(23);
    }
    let offset = num::get8(s, base + OFFSETS + i * 8);
    put_head(out, 0x20, name, shard, epoch);
    num::put8(out, 46, offset);
    put_op(out, 54, s, base, count, i);
    Request::Written(size)
}

// CopyShard (22) with the entries at the places from `from` up to `end`, at most 256.
fn write_copy(
    out: &mut [u8],
    name: &[u8],
    shard: u32,
    epoch: u64,
    s: &[u8],
    base: usize,
    count: usize,
    from: usize,
    end: usize,
) -> Request
    requires { Sends s.now base count × (from ≤ end) × (end ≤ count) × (end ≤ from + 256) × (length name.now ≤ 32) }
    ensures { Requested (some (worker.copy_of (key_named name.now shard) epoch (entries_at (store_columns s.now base count) (end - from) from)))
        out.old out.new result }
{
    let size = 48 + entries_size(s, base, from, end);
    if out.len() < size {
        return Request::Refused(23);
    }
    let n = end - from;
    put_head(out, 0x22, name, shard, epoch);
    num::put2(out, 46, n as u16);
    put_entries(out, 48, s, base, count, from, end);
    Request::Written(size)
}

// The n entries from an offset on: one of the primary's epoch as Replicate, one of another epoch and several as CopyShard.
pub fn write_send(
    out: &mut [u8],
    name: &[u8],
    shard: u32,
    epoch: u64,
    s: &[u8],
    base: usize,
    count: usize,
    first: u64,
    n: usize,
) -> Request
    requires { Sends s.now base count × (1 ≤ first) × (1 ≤ n) × (n ≤ 256) × (first + n ≤ count + 1) × (length name.now ≤ 32) }
    ensures { Requested (worker.sending (key_named name.now shard) epoch (entries_from (log_of (store_columns s.now base count) count) first n))
        out.old out.new result }
{
    let i = (first - 1) as usize;
    let own = num::get8(s, base + i * 8);
    if both(n == 1, own == epoch) {
        return write_lone(out, name, shard, epoch, s, base, count, i);
    }
    write_copy(out, name, shard, epoch, s, base, count, i, i + n)
}

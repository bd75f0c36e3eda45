// The entries of a batch appended one after the other. Internal.
ghost use Rattle.std.specs.Prelude.{◌≡◌, true, map, ◌+◌, ◌*◌, ◌≤◌, ◌<◌, length};
ghost use Rattle.spec.specs.Lists.{every};
ghost use Rattle.spec.specs.Node.Wire.{op_in_domain, entry_in_domain, stored_entry};
ghost use Rattle.log_domain.specs.Parts.{op_in, OpThere, entries_in, EntriesThere};
ghost use Rattle.image_store.specs.Image.{well_formed_image};
ghost use Rattle.image_store_check.specs.Test.{Stands};
ghost use Rattle.image_node_batch.specs.Batch.{HoldsAll, Steps, Appends};

use crate::Stock;
use image_layout::stores::STORE;
use image_store_append::ops::append_op;
use wire_read::parts::entry_at;
use wire_read::{EntryPart, Part};

// An entry that is the next is appended under its own epoch; one that is there already, or behind a gap, changes nothing.
fn append_next(
    out: &mut [u8],
    base: usize,
    count: usize,
    stored: usize,
    s: &[u8],
    e: EntryPart,
) -> Stock
    requires { (count ≤ 1024) × Stands out.old base × (well_formed_image out.old base count stored ≡ true) × OpThere s.now e.op
        × (op_in_domain (op_in s.now e.op) ≡ true) × (e.offset.0 ≡ count + 1 → count < 1024) }
    ensures { Steps out.old out.new base count stored s.now e result }
{
    let next = count + 1;
    let offset = e.offset;
    if offset.0 != next as u64 {
        return Stock {
            count: count,
            stored: stored,
        };
    }
    let under = e.epoch;
    let op = e.op;
    let rows = append_op(out, base, count, stored, under.0, s, op);
    Stock {
        count: next,
        stored: rows,
    }
}

// All of them. The table's rows are then those of the longer log; what stands behind them may have changed.
pub fn append_all(
    out: &mut [u8],
    slot: usize,
    count: usize,
    stored: usize,
    s: &[u8],
    p: Part,
) -> Stock
    requires { (slot < 8) × (1392640 ≤ length out.old) × (well_formed_image out.old (slot * 174080) count stored ≡ true)
        × EntriesThere s.now p × (every entry_in_domain (entries_in s.now p) ≡ true) × HoldsAll (entries_in s.now p) count }
    ensures { Appends out.old out.new slot count stored (map stored_entry (entries_in s.now p)) result }
{
    let base = slot * STORE;
    let n = p.len;
    let mut at = p.at;
    let mut c = count;
    let mut k = stored;
    for i in 0..n {
        let e = entry_at(s, at);
        let t = append_next(out, base, c, k, s, e);
        c = t.count;
        k = t.stored;
        at = e.next;
    }
    Stock {
        count: c,
        stored: k,
    }
}

// The writer of 21: a table of (epoch, end) pairs, handed over as two columns.
ghost use Rattle.std.specs.Prelude.{eqb, length};
ghost use Rattle.spec.specs.Lists.{◌and◌};
ghost use Rattle.spec.specs.Layout.Message.{encode_new_epoch};
ghost use Rattle.wire_put.specs.Tables.{new_epoch_given};
ghost use Rattle.wire_write.specs.Written.{Written};
ghost use Rattle.wire_put.specs.Fields.{count_fits, text_fits};

use crate::Unwritten;
use spec::{Epoch, Metric, Offset};
pub use wire_put::ends::{metric_code, put_ends};
use wire_put::fit::{count_fits, text_fits};
use wire_put::put::{put_byte, put_head};

// 21: key epoch end_offset, table, metric.
pub fn write_new_epoch(
    out: &mut [u8],
    name: &[u8],
    shard: u32,
    epoch: Epoch,
    end: Offset,
    epochs: &[u64],
    ends: &[u64],
    metric: Metric,
) -> Result<usize, Unwritten>
    ensures { Written (text_fits 32 name.now and (eqb (length epochs.now) (length ends.now) and count_fits 0 1024 (length epochs.now))) (encode_new_epoch (new_epoch_given name.now shard epoch end epochs.now ends.now metric)) out.old out.new result }
{
    if !text_fits(name, 32) {
        return Err(Unwritten::Unfit);
    }
    let n = epochs.len();
    if n != ends.len() {
        return Err(Unwritten::Unfit);
    }
    if !count_fits(0, 1024, n) {
        return Err(Unwritten::Unfit);
    }
    let size = 57 + 16 * n;
    if out.len() < size {
        return Err(Unwritten::Short);
    }
    put_head(out, 0x21, name, shard, epoch.0);
    num::put8(out, 46, end.0);
    num::put2(out, 54, n as u16);
    put_ends(out, 56, epochs, ends);
    put_byte(out, 56 + 16 * n, metric_code(metric));
    Ok(size)
}

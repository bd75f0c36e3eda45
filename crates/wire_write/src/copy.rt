// The writer of 22: entries handed over as columns, as a log keeps them (`wire_put` specs/Rows.antt).
ghost use Rattle.spec.specs.Lists.{◌and◌};
ghost use Rattle.spec.specs.Layout.Message.{encode_copy_shard};
ghost use Rattle.wire_put.specs.Rows.{copy_given, long_enough, rows_fit};
ghost use Rattle.wire_write.specs.Written.{Written};
ghost use Rattle.wire_put.specs.Fields.{count_fits, text_fits};

use crate::Unwritten;
use spec::Epoch;
use wire_put::columns::{long_enough, put_rows, rows_fit, rows_size};
use wire_put::fit::{count_fits, text_fits};
use wire_put::put::put_head;

// 22: key epoch, the first n entries of the columns.
pub fn write_copy_shard(
    out: &mut [u8],
    name: &[u8],
    shard: u32,
    epoch: Epoch,
    epochs: &[u64],
    offsets: &[u64],
    codes: &[u8],
    ids: &[u64],
    lens: &[u8],
    bits: &[u32],
    n: usize,
) -> Result<usize, Unwritten>
    ensures { Written (text_fits 32 name.now and (count_fits 0 256 n and (long_enough epochs.now offsets.now codes.now ids.now lens.now bits.now n and rows_fit codes.now lens.now n 0))) (encode_copy_shard (copy_given epochs.now offsets.now codes.now ids.now lens.now bits.now name.now shard epoch n)) out.old out.new result }
{
    if !text_fits(name, 32) {
        return Err(Unwritten::Unfit);
    }
    if !count_fits(0, 256, n) {
        return Err(Unwritten::Unfit);
    }
    if !long_enough(epochs, offsets, codes, ids, lens, bits, n) {
        return Err(Unwritten::Unfit);
    }
    if !rows_fit(codes, lens, n) {
        return Err(Unwritten::Unfit);
    }
    let rows = rows_size(codes, lens, n);
    if out.len() < 48 {
        return Err(Unwritten::Short);
    }
    if out.len() - 48 < rows {
        return Err(Unwritten::Short);
    }
    put_head(out, 0x22, name, shard, epoch.0);
    num::put2(out, 46, n as u16);
    put_rows(out, 48, epochs, offsets, codes, ids, lens, bits, n);
    Ok(48 + rows)
}

// The writers of 20, 23, 24 and 30 to 33.
ghost use Rattle.std.specs.Prelude.{◌≡◌, true, length};
ghost use Rattle.spec.specs.Lists.{◌and◌};
ghost use Rattle.spec.specs.Layout.Message.{encode_replicate, encode_reply, encode_search, encode_write};
ghost use Rattle.wire_write.specs.Written.{Written, replicate_given, reply_code, reply_given, reply_number, search_given, write_given};
ghost use Rattle.wire_put.specs.Fields.{count_fits, op_fits, text_fits, wire_of};

use crate::{Reply, Unwritten};
use spec::{Epoch, Offset};
use wire_put::fit::{count_fits, op_fits, op_size, text_fits};
use wire_put::put::{put_byte, put_head, put_op, put_words4};

// 20: key epoch offset op.
pub fn write_replicate(
    out: &mut [u8],
    name: &[u8],
    shard: u32,
    epoch: Epoch,
    offset: Offset,
    upsert: bool,
    id: u64,
    bits: &[u32],
) -> Result<usize, Unwritten>
    ensures { Written (text_fits 32 name.now and op_fits upsert (length bits.now)) (encode_replicate (replicate_given name.now shard epoch offset (wire_of upsert id bits.now))) out.old out.new result }
{
    if !text_fits(name, 32) {
        return Err(Unwritten::Unfit);
    }
    let n = bits.len();
    if !op_fits(upsert, n) {
        return Err(Unwritten::Unfit);
    }
    let size = 54 + op_size(upsert, n);
    if out.len() < size {
        return Err(Unwritten::Short);
    }
    put_head(out, 0x20, name, shard, epoch.0);
    num::put8(out, 46, offset.0);
    put_op(out, 54, upsert, id, bits);
    Ok(size)
}

// 23: key epoch op.
pub fn write_write(
    out: &mut [u8],
    name: &[u8],
    shard: u32,
    epoch: Epoch,
    upsert: bool,
    id: u64,
    bits: &[u32],
) -> Result<usize, Unwritten>
    ensures { Written (text_fits 32 name.now and op_fits upsert (length bits.now)) (encode_write (write_given name.now shard epoch (wire_of upsert id bits.now))) out.old out.new result }
{
    if !text_fits(name, 32) {
        return Err(Unwritten::Unfit);
    }
    let n = bits.len();
    if !op_fits(upsert, n) {
        return Err(Unwritten::Unfit);
    }
    let size = 46 + op_size(upsert, n);
    if out.len() < size {
        return Err(Unwritten::Short);
    }
    put_head(out, 0x23, name, shard, epoch.0);
    put_op(out, 46, upsert, id, bits);
    Ok(size)
}

// 24: key epoch, k, vector.
pub fn write_search(
    out: &mut [u8],
    name: &[u8],
    shard: u32,
    epoch: Epoch,
    k: u32,
    bits: &[u32],
) -> Result<usize, Unwritten>
    ensures { Written (text_fits 32 name.now and count_fits 1 32 (length bits.now)) (encode_search (search_given name.now shard epoch k bits.now)) out.old out.new result }
{
    if !text_fits(name, 32) {
        return Err(Unwritten::Unfit);
    }
    let n = bits.len();
    if !count_fits(1, 32, n) {
        return Err(Unwritten::Unfit);
    }
    let size = 51 + 4 * n;
    if out.len() < size {
        return Err(Unwritten::Short);
    }
    put_head(out, 0x24, name, shard, epoch.0);
    num::put4(out, 46, k);
    put_byte(out, 50, n as u8);
    put_words4(out, 51, bits);
    Ok(size)
}

// The code of a reply.
fn reply_code(reply: Reply) -> u8
    ensures { result ≡ reply_code reply }
{
    match reply {
        Reply::Stored(_) => 0x30,
        Reply::Gap(_) => 0x31,
        Reply::StaleEpoch(_) => 0x32,
        Reply::Adopted(_) => 0x33,
    }
}

// The number of a reply.
fn reply_number(reply: Reply) -> u64
    ensures { result ≡ reply_number reply }
{
    match reply {
        Reply::Stored(n) => n.0,
        Reply::Gap(n) => n.0,
        Reply::StaleEpoch(n) => n.0,
        Reply::Adopted(n) => n.0,
    }
}

// 30 to 33: one u64.
pub fn write_reply(out: &mut [u8], reply: Reply) -> Result<usize, Unwritten>
    ensures { Written true (encode_reply (reply_given reply)) out.old out.new result }
{
    if out.len() < 9 {
        return Err(Unwritten::Short);
    }
    put_byte(out, 0, reply_code(reply));
    num::put8(out, 1, reply_number(reply));
    Ok(9)
}

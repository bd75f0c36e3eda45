// A Write at the shard that its message names (paper 01, 'Who is turned down', Write), past 21 and 22. Internal.
ghost use Rattle.map_tables.specs.Names.{view_key};
ghost use Rattle.calls_client_out.specs.Ends.{ended};
ghost use Rattle.calls_parts.specs.Refusals.{number_of};
ghost use Rattle.calls_client.specs.Written.{buffers, WritesShard};
ghost use Rattle.image_node_check.specs.Find.{FoundIn};
ghost use Rattle.calls_write.specs.Asked.{Asked};

use calls_parts::answer::put_number;
use calls_parts::refusal::Refusal;
use image_header_admit::admission::admit_write;
use image_layout::header::{LAST, ROW, ROWS};
use image_node_check::find;
use image_node_grow::grow;
use map_tables::ShardKey;
use node_admit::Admit;
use node_lent::Lent;
use wire_read::WritePart;

// At its place in the header: 18, 19, 20, 23 a full log or no room for the offset. All of these are decided before a byte is written.
fn write_found(
    header: &mut [u8],
    stores: &mut [u8],
    key: ShardKey,
    at: usize,
    clock: u64,
    least: u64,
    message: &[u8],
    p: WritePart,
    answer: &mut [u8],
) -> Result<(), Refusal>
    requires { Asked message.now p (view_key key) clock × FoundIn header.old stores.old (view_key key) at }
    ensures { WritesShard (buffers header.old stores.old answer.old) (view_key key) clock least message.now
        (ended (number_of result) (buffers header.new stores.new answer.new)) }
{
    let row = ROWS + ROW * at;
    let epoch = p.epoch;
    let op = p.op;
    let admit = admit_write(header, row, epoch.0, clock, least);
    match admit {
        Admit::NotPrimary(own) => {
            put_number(answer, own);
            return Err(Refusal::NotPrimary);
        }
        Admit::NoLease => {
            return Err(Refusal::NoLease);
        }
        Admit::TooFew => {
            return Err(Refusal::TooFewInSync);
        }
        Admit::NoRoom => {
            return Err(Refusal::NoRoom);
        }
        Admit::Yes => {
            let last = num::get8(header, row + LAST);
            if !put_number(answer, last + 1) {
                return Err(Refusal::NoRoom);
            }
            grow(header, stores, at, message, op);
            return Ok(());
        }
    }
}

// 24 a state that is not lent, 17; then the write at the shard's place.
pub fn write_at(
    header: &mut [u8],
    stores: &mut [u8],
    key: ShardKey,
    clock: u64,
    least: u64,
    message: &[u8],
    p: WritePart,
    answer: &mut [u8],
) -> Result<(), Refusal>
    requires { Asked message.now p (view_key key) clock }
    ensures { WritesShard (buffers header.old stores.old answer.old) (view_key key) clock least message.now
        (ended (number_of result) (buffers header.new stores.new answer.new)) }
{
    let found = find(header, stores, key);
    match found {
        Lent::Malformed => {
            return Err(Refusal::Malformed);
        }
        Lent::Absent => {
            return Err(Refusal::UnknownShard);
        }
        Lent::At(at) => {
            return write_found(header, stores, key, at, clock, least, message, p, answer);
        }
    }
}

// Internal: one reader a kind. Each is called where the kind's code stands, tests the shape of all the bytes, and
// then takes the numbers from their fixed places.
ghost use Rattle.std.specs.Prelude.{◌≡◌, slice_index};
ghost use Rattle.spec.specs.Layout.Message.{decode_copy_shard, decode_new_epoch, decode_replicate, decode_reply, decode_search, decode_write};
ghost use Rattle.spec.specs.Layout.Request.{decode_request};
ghost use Rattle.wire_read.specs.Shown.{copy_shown, new_epoch_shown, replicate_shown, reply_shown, request_part_of, request_shown, search_shown, shown, write_shown};

use crate::command::command_at;
use crate::parts::{key_at, metric_at, op_at, text_at};
use crate::{
    CopyPart, Message, NewEpochPart, Part, ReplicatePart, RequestPart, SearchPart, WritePart,
};
use spec::{Epoch, Offset};
use wire_shape::{
    skip_below, skip_command, skip_entries, skip_long_run, skip_op, skip_run, skip_text, skip_word,
};

// 01, at a position, with the position after it.
pub fn read_request(s: &[u8], at: usize) -> Option<(RequestPart, usize)>
    ensures { result ≡ request_part_of s.now at }
{
    if s.len() <= at {
        return None;
    }
    if s[at] != 0x01 {
        return None;
    }
    skip_word(s, at + 1, 24)?;
    let t = at + 1 + 8 + 8 + 8;
    let end = skip_command(s, t)?;
    let index = num::get8(s, at + 1);
    let client = num::get8(s, at + 1 + 8);
    let seq = num::get8(s, at + 1 + 8 + 8);
    let command = command_at(s, t);
    let request = RequestPart {
        index,
        client,
        seq,
        command,
    };
    Some((request, end))
}

// 01, all of the bytes.
pub fn read_whole_request(s: &[u8]) -> Option<Message>
    ensures { result ≡ shown (request_shown 0) (decode_request s.now) }
{
    let (request, end) = read_request(s, 0)?;
    if end == s.len() {
        return Some(Message::Request(request));
    }
    None
}

// 20: key epoch offset op.
pub fn read_replicate(s: &[u8]) -> Option<Message>
    requires { slice_index s.now 0 ≡ 0x20 }
    ensures { result ≡ shown replicate_shown (decode_replicate s.now) }
{
    skip_text(s, 1, 32, 20)?;
    let end = skip_op(s, 54)?;
    if end != s.len() {
        return None;
    }
    let key = key_at(s, 1);
    let epoch = Epoch(num::get8(s, 38));
    let offset = Offset(num::get8(s, 46));
    let op = op_at(s, 54);
    Some(Message::Replicate(ReplicatePart {
        key,
        epoch,
        offset,
        op,
    }))
}

// 21: key epoch end_offset, table, metric.
pub fn read_new_epoch(s: &[u8]) -> Option<Message>
    requires { slice_index s.now 0 ≡ 0x21 }
    ensures { result ≡ shown new_epoch_shown (decode_new_epoch s.now) }
{
    skip_text(s, 1, 32, 20)?;
    let after = skip_long_run(s, 54, 1024, 16)?;
    let end = skip_below(s, after, 2)?;
    if end != s.len() {
        return None;
    }
    let key = key_at(s, 1);
    let epoch = Epoch(num::get8(s, 38));
    let last = Offset(num::get8(s, 46));
    let count = num::get2(s, 54) as usize;
    let metric = metric_at(s, after);
    let table = Part { at: 56, len: count };
    Some(Message::NewEpoch(NewEpochPart {
        key,
        epoch,
        end: last,
        table,
        metric,
    }))
}

// 22: key epoch, entries.
pub fn read_copy_shard(s: &[u8]) -> Option<Message>
    requires { slice_index s.now 0 ≡ 0x22 }
    ensures { result ≡ shown copy_shown (decode_copy_shard s.now) }
{
    skip_text(s, 1, 32, 12)?;
    let end = skip_entries(s, 46)?;
    if end != s.len() {
        return None;
    }
    let key = key_at(s, 1);
    let epoch = Epoch(num::get8(s, 38));
    let count = num::get2(s, 46) as usize;
    let entries = Part { at: 48, len: count };
    Some(Message::CopyShard(CopyPart {
        key,
        epoch,
        entries,
    }))
}

// 23: key epoch op.
pub fn read_write(s: &[u8]) -> Option<Message>
    requires { slice_index s.now 0 ≡ 0x23 }
    ensures { result ≡ shown write_shown (decode_write s.now) }
{
    skip_text(s, 1, 32, 12)?;
    let end = skip_op(s, 46)?;
    if end != s.len() {
        return None;
    }
    let key = key_at(s, 1);
    let epoch = Epoch(num::get8(s, 38));
    let op = op_at(s, 46);
    Some(Message::Write(WritePart { key, epoch, op }))
}

// 24: key epoch, k, vector.
pub fn read_search(s: &[u8]) -> Option<Message>
    requires { slice_index s.now 0 ≡ 0x24 }
    ensures { result ≡ shown search_shown (decode_search s.now) }
{
    skip_text(s, 1, 32, 16)?;
    let end = skip_run(s, 50, 1, 32, 4)?;
    if end != s.len() {
        return None;
    }
    let key = key_at(s, 1);
    let epoch = Epoch(num::get8(s, 38));
    let k = num::get4(s, 46);
    let vector = text_at(s, 50);
    Some(Message::Search(SearchPart {
        key,
        epoch,
        k,
        vector,
    }))
}

// 30 to 33: one u64.
pub fn read_reply(s: &[u8]) -> Option<Message>
    ensures { result ≡ shown reply_shown (decode_reply s.now) }
{
    if s.len() != 9 {
        return None;
    }
    let n = num::get8(s, 1);
    match s[0] {
        0x30 => Some(Message::Stored(Offset(n))),
        0x31 => Some(Message::Gap(Offset(n))),
        0x32 => Some(Message::StaleEpoch(Epoch(n))),
        0x33 => Some(Message::Adopted(Offset(n))),
        _ => None,
    }
}

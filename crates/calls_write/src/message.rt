// The message of a Write (paper 01, 'Who is turned down', Write): read once, and tested before any state is looked at. Internal.
ghost use Rattle.calls_client_out.specs.Ends.{ended};
ghost use Rattle.calls_parts.specs.Refusals.{number_of};
ghost use Rattle.calls_client.specs.Written.{buffers, WritesBytes};

use crate::held::write_at;
use calls_parts::refusal::Refusal;
use log_arrive::domain::op_in_domain;
use map_names::key_of;
use node_shard::LAST_TIME;
use wire_read::{Message, decode};

// 21 a time above 2^62 or a message that is no Write, 22, 24 a count that is not lent; then the write at the shard.
pub fn write_message(
    header: &mut [u8],
    stores: &mut [u8],
    refused: &[u8],
    clock: u64,
    least: u64,
    message: &[u8],
    answer: &mut [u8],
) -> Result<(), Refusal>
    ensures { WritesBytes (buffers header.old stores.old answer.old) refused.now clock least
        message.now (ended (number_of result) (buffers header.new stores.new answer.new)) }
{
    if LAST_TIME < clock {
        return Err(Refusal::Undecodable);
    }
    let Message::Write(p) = decode(message) else {
        return Err(Refusal::Undecodable);
    };
    let op = p.op;
    if !op_in_domain(message, op) {
        return Err(Refusal::OutsideDomain);
    }
    if refused.len() < 4 {
        return Err(Refusal::Malformed);
    }
    let part = p.key;
    let key = key_of(message, part);
    write_at(header, stores, key, clock, least, message, p, answer)
}

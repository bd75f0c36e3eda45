// NewEpoch over the images that a host owns, in place (paper 01, 'Who is turned down', 21; docs/IMAGES.md): header and store are tested and
// changed where they stand. All that can turn it down, a reply without room included, is decided before a byte is written.
#![tactic(auto)]

ghost use Rattle.calls_parts.specs.Refusals.{number_of};
ghost use Rattle.calls_peer.specs.PeerCalls.{NewEpochsImage, buffers};

use crate::held::at_shard;
use calls_parts::refusal::Refusal;
use map_names::key_of;
use wire_read::{Message, decode};

mod held;

// Undecodable, Malformed, NoRoom; otherwise the reply, 32 or 33, stands in its buffer.
pub fn new_epoch(
    header: &mut [u8],
    stores: &mut [u8],
    message: &[u8],
    reply: &mut [u8],
) -> Result<(), Refusal>
    ensures { NewEpochsImage message.now
        (buffers header.old stores.old reply.old)
        (buffers header.new stores.new reply.new) (number_of result) }
{
    let Message::NewEpoch(p) = decode(message) else {
        return Err(Refusal::Undecodable);
    };
    let part = p.key;
    let key = key_of(message, part);
    at_shard(header, stores, key, message, p, reply)
}

// What a primary sends to a node.
ghost use Rattle.calls_peer.specs.PeerCalls.{buffers, ReplicatesImage, NewEpochsImage, CopiesImage};

use calls_parts::refusal::number;

pub fn catalogue_replicate(
    header: &mut [u8],
    stores: &mut [u8],
    message: &[u8],
    reply: &mut [u8],
) -> u32
    ensures { ReplicatesImage message.now
        (buffers header.old stores.old reply.old)
        (buffers header.new stores.new reply.new) result }
{
    number(calls_replicate::replicate(header, stores, message, reply))
}

pub fn catalogue_new_epoch(
    header: &mut [u8],
    stores: &mut [u8],
    message: &[u8],
    reply: &mut [u8],
) -> u32
    ensures { NewEpochsImage message.now
        (buffers header.old stores.old reply.old)
        (buffers header.new stores.new reply.new) result }
{
    number(calls_epoch::new_epoch(header, stores, message, reply))
}

pub fn catalogue_copy(header: &mut [u8], stores: &mut [u8], message: &[u8], reply: &mut [u8]) -> u32
    ensures { CopiesImage message.now
        (buffers header.old stores.old reply.old)
        (buffers header.new stores.new reply.new) result }
{
    number(calls_copy::copy(header, stores, message, reply))
}

// What the map, the clock and peers bring to a node's header.
ghost use Rattle.calls_header.specs.Acks.{Acks};
ghost use Rattle.calls_header.specs.Fresh.{Freshens};
ghost use Rattle.calls_header.specs.Grants.{Grants};
ghost use Rattle.calls_header.specs.Outcomes.{Outcomes};
ghost use Rattle.calls_header.specs.Shows.{Shows};
ghost use Rattle.calls_header.specs.Waits.{Waits};

use calls_parts::refusal::number;

pub fn catalogue_fresh_node(header: &mut [u8], id: u64, incarnation: u64) -> u32
    ensures { Freshens header.old header.new id incarnation result }
{
    number(calls_show::fresh::fresh_node(header, id, incarnation))
}

pub fn catalogue_show_map(
    header: &mut [u8],
    map: &[u8],
    fresh: u64,
    starts: &mut [u8],
    answer: &mut [u8],
) -> u32
    ensures { Shows header.old header.new map.now starts.old starts.new
        answer.old answer.new fresh result }
{
    number(calls_show::show::show_map(header, map, fresh, starts, answer))
}

pub fn catalogue_grant(header: &mut [u8], incarnation: u64, sent: u64, lease: u64) -> u32
    ensures { Grants header.old header.new incarnation sent lease result }
{
    number(calls_grant::grant(header, incarnation, sent, lease))
}

pub fn catalogue_wait(
    header: &mut [u8],
    name: &[u8],
    shard: u32,
    epoch: u64,
    offset: u64,
    clock: u64,
    timeout: u64,
    peers: &mut [u8],
    answer: &mut [u8],
) -> u32
    ensures { Waits header.old header.new peers.old peers.new
        answer.old answer.new name.now shard epoch offset clock timeout result }
{
    let said = calls_wait::wait::wait(
        header, name, shard, epoch, offset, clock, timeout, peers, answer,
    );
    calls_wait::waited::number(said)
}

pub fn catalogue_ack(
    header: &mut [u8],
    name: &[u8],
    shard: u32,
    epoch: u64,
    peer: u64,
    step: u8,
    reply: &[u8],
) -> u32
    ensures { Acks header.old header.new name.now reply.now shard epoch peer step result }
{
    let said = calls_ack::ack::ack(header, name, shard, epoch, peer, step, reply);
    calls_ack::told::number(said)
}

pub fn catalogue_outcome(
    header: &mut [u8],
    name: &[u8],
    shard: u32,
    epoch: u64,
    peer: u64,
    command: u8,
    applied: u8,
) -> u32
    ensures { Outcomes header.old header.new name.now shard epoch peer command applied result }
{
    number(calls_outcome::outcome::outcome(header, name, shard, epoch, peer, command, applied))
}

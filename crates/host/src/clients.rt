// What clients send to a node.
ghost use Rattle.calls_client.specs.Searched.{SearchesImages};
ghost use Rattle.calls_client.specs.Written.{buffers, WritesImages};

use calls_parts::refusal::number;

pub fn catalogue_write(
    header: &mut [u8],
    stores: &mut [u8],
    refused: &mut [u8],
    clock: u64,
    least: u64,
    message: &[u8],
    answer: &mut [u8],
) -> u32
    ensures { WritesImages
        (buffers header.old stores.old answer.old)
        (buffers header.new stores.new answer.new)
        refused.old refused.new clock least message.now result }
{
    number(calls_write::write(header, stores, refused, clock, least, message, answer))
}

pub fn catalogue_search(
    header: &[u8],
    stores: &[u8],
    refused: &mut [u8],
    clock: u64,
    message: &[u8],
    hits: &mut [u8],
    answer: &mut [u8],
) -> u32
    ensures { SearchesImages header.now stores.now refused.old clock message.now hits.old
        answer.old refused.new hits.new answer.new result }
{
    number(calls_search::search(header, stores, refused, clock, message, hits, answer))
}

// Search over the images that a host owns, in the lent bytes (paper 01, 'Who is turned down', Search; docs/IMAGES.md): the message is decoded once,
// the header and the store are tested where they stand, and the hits are written straight to the output. It asks nothing of its caller.
#![tactic(auto)]

ghost use Rattle.calls_client.specs.Searched.{SearchesImages, SearchesBytes};
ghost use Rattle.calls_client_out.specs.Found.{ended};
ghost use Rattle.calls_parts.specs.Refusals.{number_of};

use calls_client_out::count::count_call;
use calls_parts::refusal::{Refusal, number};
use map_names::key_of;
use named::search_named;
use node_search::query::read_query;
use node_shard::LAST_TIME;
use wire_read::{Message, decode};

mod held;
mod hits;
mod named;

// The bytes of a count of refused calls.
const COUNT: usize = 4;

// 21 a time above 2^62 or a message that is no Search, 22, 24 a count that is not lent; then the search at the shard.
fn search_message(
    header: &[u8],
    stores: &[u8],
    refused: &[u8],
    clock: u64,
    message: &[u8],
    hits: &mut [u8],
    answer: &mut [u8],
) -> Result<(), Refusal>
    ensures { SearchesBytes header.now stores.now refused.now clock message.now hits.old
        answer.old (ended (number_of result) hits.new answer.new) }
{
    if LAST_TIME < clock {
        return Err(Refusal::Undecodable);
    }
    let Message::Search(p) = decode(message) else {
        return Err(Refusal::Undecodable);
    };
    let vector = p.vector;
    let mut query = [0.0f32; 32];
    if !read_query(message, vector, &mut query) {
        return Err(Refusal::OutsideDomain);
    }
    if refused.len() < COUNT {
        return Err(Refusal::Malformed);
    }
    let part = p.key;
    let key = key_of(message, part);
    let n = vector.len;
    let epoch = p.epoch;
    search_named(
        header,
        stores,
        key,
        clock,
        epoch,
        p.k,
        &query[..n],
        hits,
        answer,
    )
}

// 24: Ok with the neighbours in `hits`, 12 bytes each, nearest first, and how many they are in `answer`; 17, 18 with the own epoch in
// `answer`, 19, 21, 22, 24, and 23 if the neighbours or their count have no room. Nothing of the node changes. `refused` counts each refusal.
pub fn search(
    header: &[u8],
    stores: &[u8],
    refused: &mut [u8],
    clock: u64,
    message: &[u8],
    hits: &mut [u8],
    answer: &mut [u8],
) -> Result<(), Refusal>
    ensures { SearchesImages header.now stores.now refused.old clock message.now hits.old
        answer.old refused.new hits.new answer.new (number_of result) }
{
    let said = search_message(header, stores, refused, clock, message, hits, answer);
    count_call(refused, number(said));
    said
}

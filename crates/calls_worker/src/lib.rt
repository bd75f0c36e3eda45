// The step of a worker, as a host in C asks for it (paper 01, 'The node'; node.rs, replicate_to): over the byte images of the header and of
// the stores, which are only read, with an output for the request and one for the number beside the answer.
#![tactic(auto)]

ghost use Rattle.calls_worker.specs.Steps.{asking, outputs, StepsImage};
ghost use Rattle.calls_worker.specs.Numbers.{number_of};

use crate::codes::metric_of;
use crate::next::Next;
use crate::told::{step_at, stops};
use calls_parts::named::key_named;
use calls_parts::refusal::Refusal;
use image_node_check::find;
use node_lent::Lent;
use wire_write::fit::text_fits;

mod codes;
pub mod next;
mod told;

// Undecodable a name or a metric that is none; Malformed; NoRoom if an output is short. Otherwise what comes next, with the request in
// `request` and its length in `answer`, which is 0 beside Wait and Stop.
pub fn step(
    header: &[u8],
    stores: &[u8],
    name: &[u8],
    shard: u32,
    epoch: u64,
    peer: u64,
    metric: u8,
    request: &mut [u8],
    answer: &mut [u8],
) -> Result<Next, Refusal>
    ensures { StepsImage header.now stores.now (asking name.now shard epoch peer metric)
        (outputs request.old answer.old) (outputs request.new answer.new) (number_of result) }
{
    if !text_fits(name, 32) {
        return Err(Refusal::Undecodable);
    }
    let Some(m) = metric_of(metric) else {
        return Err(Refusal::Undecodable);
    };
    let key = key_named(name, shard);
    let found = find(header, stores, key);
    match found {
        Lent::Malformed => Err(Refusal::Malformed),
        Lent::Absent => stops(answer),
        Lent::At(at) => step_at(
            header, at, stores, name, shard, epoch, peer, m, request, answer,
        ),
    }
}

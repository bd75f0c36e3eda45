// A client's Write over the images that a host owns, in place (paper 01, 'Who is turned down', Write; docs/IMAGES.md). The count of refused
// calls is lent apart from the node's state, so that a call refused for a malformed state counts too. It asks nothing of its caller.
#![tactic(auto)]

ghost use Rattle.calls_client.specs.Written.{buffers, WritesImages};
ghost use Rattle.calls_parts.specs.Refusals.{number_of};

use calls_client_out::count::count_call;
use calls_parts::refusal::{Refusal, number};
use message::write_message;

mod held;
mod message;

// 23: Ok with the offset in `answer`; 17, 18 with the own epoch in `answer`, 19, 20, 21, 22, 24, and 23 if the log is full or `answer` has no
// room. Refused, no byte of the images changes. `least` is min_in_sync. `refused` counts each refusal.
pub fn write(
    header: &mut [u8],
    stores: &mut [u8],
    refused: &mut [u8],
    clock: u64,
    least: u64,
    message: &[u8],
    answer: &mut [u8],
) -> Result<(), Refusal>
    ensures { WritesImages (buffers header.old stores.old answer.old)
        (buffers header.new stores.new answer.new) refused.old refused.new clock least
        message.now (number_of result) }
{
    let said = write_message(header, stores, refused, clock, least, message, answer);
    count_call(refused, number(said));
    said
}

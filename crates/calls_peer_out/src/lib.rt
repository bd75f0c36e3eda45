// What follows a primary's call over the images that a host owns (docs/IMAGES.md): the reply and the state are written, or nothing is.
// Internal: what `calls_replicate`, `calls_copy` and `calls_epoch` share.
#![tactic(auto)]

ghost use Rattle.calls_parts.specs.Refusals.{number_of};
ghost use Rattle.calls_peer_out.specs.Ends.{Replies};

use calls_parts::refusal::Refusal;
use wire_write::Reply;
use wire_write::message::write_reply;

// What a call's answer asks for. A refusal, or a reply: beside a state that stays as it was, or one that the call made.
#[derive(Drop)]
pub enum Outcome {
    Refused(u8),
    Kept(Reply),
    Changed(Reply),
}

// Internal: the reply, or NoRoom without room for its nine bytes.
pub fn put_reply(reply: &mut [u8], w: Reply) -> Result<(), Refusal>
    ensures { Replies w reply.old reply.new (number_of result) }
{
    if reply.len() < 9 {
        return Err(Refusal::NoRoom);
    }
    let _wrote = write_reply(reply, w);
    Ok(())
}

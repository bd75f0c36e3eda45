// What an ack is asked with.
ghost use Rattle.std.specs.Prelude.{◌≡◌};
ghost use Rattle.calls_header.specs.Acks.{sent_at};
ghost use Rattle.calls_ack.specs.Acked.{Heeds};

use node_acks::bad;
use node_hear::ack::reply_of;
use node_shard::{Reply, Sent};
use wire_write::fit::text_fits;

// Internal: the reply, or nothing if the name, the step or the reply is none.
pub fn heeded(name: &[u8], step: u8, reply: &[u8]) -> Option<Reply>
    ensures { Heeds name.now step reply.now result }
{
    if !text_fits(name, 32) {
        return None;
    }
    if step < 2 {
        return None;
    }
    if 4 < step {
        return None;
    }
    let h = reply_of(reply);
    let Some(a) = h else {
        return None;
    };
    if bad(a) {
        return None;
    }
    Some(a)
}

// Internal: the step that was replied to.
pub fn sent_at(step: u8) -> Sent
    ensures { result ≡ sent_at step }
{
    if step == 2 {
        return Sent::Align;
    }
    if step == 3 {
        Sent::Replicate
    } else {
        Sent::Copy
    }
}

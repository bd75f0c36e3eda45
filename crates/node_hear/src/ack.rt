// A reply in bytes (paper 01, 'Ack', 'Who is turned down').
ghost use Rattle.std.specs.Prelude.{◌≡◌};
ghost use Rattle.spec.specs.Layout.Message.{decode_reply};
ghost use Rattle.node_hear.specs.Hears.{heard_of};

use node_shard::Reply;
use wire_read::Message;

// Internal: the reply that the bytes are, all of them.
pub fn reply_of(s: &[u8]) -> Option<Reply>
    ensures { result ≡ heard_of (decode_reply s.now) }
{
    let m = wire_read::decode(s);
    match m {
        Message::Stored(x) => Some(Reply::Stored(x.0)),
        Message::Gap(x) => Some(Reply::Gap(x.0)),
        Message::StaleEpoch(x) => Some(Reply::Stale(x.0)),
        Message::Adopted(x) => Some(Reply::Adopted(x.0)),
        _ => None,
    }
}

// Ack: the call.
ghost use Rattle.std.specs.Prelude.{◌≡◌, true, false, ◌<◌};
ghost use Rattle.spec.specs.Node.Ack.{bad_reply};
ghost use Rattle.node_shard.specs.Acks.{reply_of};
ghost use Rattle.node_header.specs.Formed.{formed_node};
ghost use Rattle.image_header.specs.Image.{node_at};
ghost use Rattle.calls_header.specs.Acks.{Acks};
ghost use Rattle.image_header_check.specs.Rows.{Counts};
ghost use Rattle.calls_ack.specs.Acked.{AcksAt};
ghost use Rattle.calls_ack.specs.Numbers.{number_of};

use crate::deeds::{asks, set_deed};
use crate::heeds::{heeded, sent_at};
use crate::told::Told;
use calls_parts::named::key_named;
use calls_parts::refusal::Refusal;
use image_header::is_lent;
use image_header_check::formed::is_formed;
use image_header_check::place::place_at;
use image_header_row::held::role_at;
use image_header_set::back::put_back;
use image_header_set::peers::place_of;
use node_shard::rows::leads;
use node_shard::{Reply, Sent};

// Internal: the ack at the shard at place `at`: nothing without a primary at that epoch, 26 a peer with no worker, or what the reply brings about.
fn ack_at(
    header: &mut [u8],
    count: usize,
    at: usize,
    epoch: u64,
    peer: u64,
    step: Sent,
    reply: Reply,
) -> Result<Told, Refusal>
    requires { Counts header.old count × (at < count) × (formed_node (node_at header.old) ≡ true) × (bad_reply (reply_of reply) ≡ false) }
    ensures { AcksAt header.old header.new at epoch peer step reply (number_of result) }
{
    let row = 48 + 1280 * at;
    let role = role_at(header, row + 108);
    if !leads(role, epoch) {
        put_back(header, count);
        return Ok(Told::Noted);
    }
    let n = num::get8(header, row + 88) as usize;
    let i = place_of(header, row + 256, n, peer);
    if n <= i {
        return Err(Refusal::NoWorker);
    }
    let d = asks(step, reply, epoch);
    let said = set_deed(header, row, i, d);
    put_back(header, count);
    Ok(said)
}

// 21 the name, the step or the reply, 24; then the ack, which without the shard changes nothing.
pub fn ack(
    header: &mut [u8],
    name: &[u8],
    shard: u32,
    epoch: u64,
    peer: u64,
    step: u8,
    reply: &[u8],
) -> Result<Told, Refusal>
    ensures { Acks header.old header.new name.now reply.now shard epoch peer step (number_of result) }
{
    let h = heeded(name, step, reply);
    let Some(a) = h else {
        return Err(Refusal::Undecodable);
    };
    if !is_lent(header) {
        return Err(Refusal::Malformed);
    }
    if !is_formed(header) {
        return Err(Refusal::Malformed);
    }
    let count = num::get8(header, 24) as usize;
    let key = key_named(name, shard);
    let at = place_at(header, count, key);
    if count <= at {
        put_back(header, count);
        return Ok(Told::Noted);
    }
    let sent = sent_at(step);
    ack_at(header, count, at, epoch, peer, sent, a)
}

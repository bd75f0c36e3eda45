// Outcome of a proposal: the call.
ghost use Rattle.std.specs.Prelude.{◌≡◌};
ghost use Rattle.calls_header.specs.Outcomes.{unread_outcome, proposal_at, Outcomes};
ghost use Rattle.calls_parts.specs.Refusals.{number_of};

use crate::settle::settle_row;
use calls_parts::named::key_named;
use calls_parts::refusal::Refusal;
use image_header::is_lent;
use image_header_check::formed::is_formed;
use image_header_check::place::place_at;
use image_header_set::back::put_back;
use node_header::Proposal;
use node_header::outcome::takes_out;
use wire_write::fit::text_fits;

// Internal: the name, the command or how it ended is none.
fn unread(name: &[u8], command: u8, applied: u8) -> bool
    ensures { result ≡ unread_outcome name.now command applied }
{
    if !text_fits(name, 32) {
        return true;
    }
    if 1 < applied {
        return true;
    }
    if command < 0x17 {
        return true;
    }
    0x18 < command
}

// Internal: what was proposed.
fn proposal_at(command: u8) -> Proposal
    ensures { result ≡ proposal_at command }
{
    if command == 0x17 {
        Proposal::Shrink
    } else {
        Proposal::Grow
    }
}

// 21 the name, the command or how it ended, 24; then the outcome, which without the shard changes nothing.
pub fn outcome(
    header: &mut [u8],
    name: &[u8],
    shard: u32,
    epoch: u64,
    peer: u64,
    command: u8,
    applied: u8,
) -> Result<(), Refusal>
    ensures { Outcomes header.old header.new name.now shard epoch peer command applied (number_of result) }
{
    if unread(name, command, applied) {
        return Err(Refusal::Undecodable);
    }
    if !is_lent(header) {
        return Err(Refusal::Malformed);
    }
    if !is_formed(header) {
        return Err(Refusal::Malformed);
    }
    let count = num::get8(header, 24) as usize;
    let key = key_named(name, shard);
    let at = place_at(header, count, key);
    if count <= at {
        put_back(header, count);
        return Ok(());
    }
    let me = num::get8(header, 0);
    let what = proposal_at(command);
    let left = takes_out(what, applied == 1);
    settle_row(header, 48 + 1280 * at, me, epoch, peer, left);
    put_back(header, count);
    Ok(())
}

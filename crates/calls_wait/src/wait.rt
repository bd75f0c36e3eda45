// Waiting for acks: the call.
ghost use Rattle.std.specs.Prelude.{◌≡◌, ◌+◌, ◌*◌, ◌≤◌, ◌<◌};
ghost use Rattle.spec.specs.Layout.Format.{number_at};
ghost use Rattle.calls_header.specs.Waits.{unread_wait, Waits};
ghost use Rattle.image_header_check.specs.Rows.{Counts};
ghost use Rattle.calls_wait.specs.Numbers.{number_of};
ghost use Rattle.calls_wait.specs.Waited.{WaitsAt};

use crate::ends::put_shrink;
use crate::waited::Waited;
use calls_header::times::late;
use calls_parts::answer::put_number;
use calls_parts::named::key_named;
use calls_parts::refusal::Refusal;
use image_header::is_lent;
use image_header_check::formed::is_formed;
use image_header_check::place::place_at;
use image_header_form::peers::{all_acked, shrinks_of};
use image_header_row::held::role_at;
use node_shard::rows::leads;
use wire_write::fit::text_fits;

// Internal: the name or a time is none.
fn unread(name: &[u8], clock: u64, timeout: u64) -> bool
    ensures { result ≡ unread_wait name.now clock timeout }
{
    if !text_fits(name, 32) {
        return true;
    }
    late(clock, timeout)
}

// Internal: the wait at the shard at place `at`: 18, or done or waiting.
fn wait_at(
    header: &mut [u8],
    count: usize,
    at: usize,
    epoch: u64,
    offset: u64,
    clock: u64,
    timeout: u64,
    peers: &mut [u8],
    answer: &mut [u8],
) -> Result<Waited, Refusal>
    requires { Counts header.old count × (at < count) × (number_at 8 header.old (48 + 1280 * at + 88) ≤ 32) }
    ensures { WaitsAt header.old header.new peers.old peers.new
        answer.old answer.new at epoch offset clock timeout (number_of result) }
{
    let row = 48 + 1280 * at;
    let owns = row + 64;
    let lasts = row + 72;
    let counts = row + 88;
    let roles = row + 108;
    let rows = row + 256;
    let role = role_at(header, roles);
    if !leads(role, epoch) {
        let own = num::get8(header, owns);
        put_number(answer, own);
        return Err(Refusal::NotPrimary);
    }
    let last = num::get8(header, lasts);
    let n = num::get8(header, counts) as usize;
    let shrink = shrinks_of(header, rows, n, last, clock, timeout);
    if all_acked(header, rows, n, offset) {
        let done = Waited::Done;
        return put_shrink(
            header, count, at, clock, timeout, shrink, peers, answer, done,
        );
    }
    let waiting = Waited::Waiting;
    put_shrink(
        header, count, at, clock, timeout, shrink, peers, answer, waiting,
    )
}

// 21 the name or a time above 2^62, 24, 17, 18; then the wait.
pub fn wait(
    header: &mut [u8],
    name: &[u8],
    shard: u32,
    epoch: u64,
    offset: u64,
    clock: u64,
    timeout: u64,
    peers: &mut [u8],
    answer: &mut [u8],
) -> Result<Waited, Refusal>
    ensures { Waits header.old header.new peers.old peers.new
        answer.old answer.new name.now shard epoch offset clock timeout (number_of result) }
{
    if unread(name, clock, timeout) {
        return Err(Refusal::Undecodable);
    }
    if !is_lent(header) {
        return Err(Refusal::Malformed);
    }
    if !is_formed(header) {
        return Err(Refusal::Malformed);
    }
    let count = num::get8(header, 24) as usize;
    let key = key_named(name, shard);
    let at = place_at(header, count, key);
    if count <= at {
        return Err(Refusal::UnknownShard);
    }
    wait_at(
        header, count, at, epoch, offset, clock, timeout, peers, answer,
    )
}

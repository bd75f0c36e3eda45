// The step of a worker at the shard that was found, and what is told of it. Internal.
ghost use Rattle.std.specs.Prelude.{◌≡◌, cond, ◌+◌, ◌*◌, ◌≤◌, length};
ghost use Rattle.wire_write.specs.Written.{key_given};
ghost use Rattle.node_admit.specs.Steps.{Steps};
ghost use Rattle.node_send.specs.Requested.{Requested};
ghost use Rattle.image_header_row.specs.Rows.{held_row_at};
ghost use Rattle.image_header.specs.Image.{node_at};
ghost use Rattle.calls_parts.specs.Answer.{answer_lent, number_put};
ghost use Rattle.image_node.specs.Lent.{lent_store_in};
ghost use Rattle.image_node_check.specs.Find.{FoundIn};
ghost use Rattle.calls_worker.specs.Steps.{outputs, StepAsked};
ghost use Rattle.calls_worker.specs.Numbers.{number_of};
ghost use Rattle.calls_worker.specs.Found.{request_at};

use crate::codes::{quiet, sent};
use crate::next::Next;
use calls_parts::answer::put_number;
use calls_parts::refusal::Refusal;
use image_header_row::held::role_at;
use image_layout::header::{LAST, ROLE, ROW, ROWS, SLOT};
use image_layout::stores::STORE;
use image_send::{write_align, write_send};
use node_admit::Step;
use node_send::Request;
use node_send::worker::end_of;
use node_send_entries::entries::up_to;
use spec::Metric;

// Without the shard the worker stops; NoRoom if there is none to say so.
pub fn stops(answer: &mut [u8]) -> Result<Next, Refusal>
    ensures { (number_of result ≡ cond (answer_lent answer.old) 1 23) × (answer.new ≡ number_put answer.old 0) }
{
    if put_number(answer, 0) {
        return Ok(Next::Stop);
    }
    Err(Refusal::NoRoom)
}

// The request of the step for a peer, at the shard that stands at place `at`.
fn request_at(
    out: &mut [u8],
    header: &[u8],
    at: usize,
    stores: &[u8],
    name: &[u8],
    shard: u32,
    step: Step,
    epoch: u64,
    peer: u64,
    metric: Metric,
) -> Request
    requires { FoundIn header.now stores.now (key_given name.now shard) at × (length name.now ≤ 32)
        × Steps (held_row_at header.now (48 + 1280 * at)).held epoch peer step }
    ensures { Requested (request_at header.now stores.now (key_given name.now shard) at epoch peer metric)
        out.old out.new result }
{
    let row = ROWS + ROW * at;
    let roles = row + ROLE;
    let base = num::get8(header, row + SLOT) as usize * STORE;
    let count = num::get8(header, row + LAST) as usize;
    match step {
        Step::Stop => Request::Unsent,
        Step::Wait => Request::Unsent,
        Step::Align => {
            let role = role_at(header, roles);
            let end = end_of(role);
            let n = up_to(end.0 as usize, count);
            write_align(out, name, shard, epoch, end.0, stores, base, n, metric)
        }
        Step::Send { first, count: n } => {
            write_send(
                out, name, shard, epoch, stores, base, count, first, n as usize,
            )
        }
    }
}

// NoRoom for the answer; then the step, its request, and the length of the request beside the answer.
pub fn step_at(
    header: &[u8],
    at: usize,
    stores: &[u8],
    name: &[u8],
    shard: u32,
    epoch: u64,
    peer: u64,
    metric: Metric,
    request: &mut [u8],
    answer: &mut [u8],
) -> Result<Next, Refusal>
    requires { FoundIn header.now stores.now (key_given name.now shard) at × (length name.now ≤ 32) }
    ensures { StepAsked (node_at header.now) (lent_store_in stores.now (node_at header.now) (key_given name.now shard))
        (key_given name.now shard) epoch peer metric
        (outputs request.old answer.old) (outputs request.new answer.new) (number_of result) }
{
    if answer.len() < 8 {
        return Err(Refusal::NoRoom);
    }
    let s = image_header_admit::worker::step(header, ROWS + ROW * at, epoch, peer);
    let w = request_at(
        request, header, at, stores, name, shard, s, epoch, peer, metric,
    );
    match w {
        // There is no room for the request.
        Request::Refused(_) => Err(Refusal::NoRoom),
        Request::Unsent => {
            put_number(answer, 0);
            Ok(quiet(s))
        }
        Request::Written(n) => {
            put_number(answer, n as u64);
            Ok(sent(request))
        }
    }
}

// The worker's step (paper 01, 'The node'; node.rs, replicate_to). Internal.
ghost use Rattle.std.specs.Prelude.{◌≡◌, true, ◌+◌, ◌≤◌, length};
ghost use Rattle.node_shard.specs.Formed.{formed_held};
ghost use Rattle.node_admit.specs.Steps.{step_from, Steps};
ghost use Rattle.image_header_row.specs.Rows.{held_row_at};

use image_header_row::held::role_at;
use image_header_row::peers::peer_at;
use image_header_set::peers::place_of;
use image_layout::header::{COUNT, HOLDERS, LAST, PEER, PEERS, REPLICAS, ROLE};
use image_parts::replicas::replicas_at;
use node_admit::Step;
use node_shard::rows::{is_holder, leads};

// The most entries of one request.
const BATCH: u64 = 256;

// An aligned peer gets what follows its ack.
fn sends(acked: u64, last: u64) -> Step
    requires { acked ≤ 4611686018427387904 }
    ensures { result ≡ step_from acked last }
{
    if last <= acked {
        return Step::Wait;
    }
    Step::Send {
        first: acked + 1,
        count: BATCH.min(last - acked),
    }
}

// The step at the shard whose row begins at `row`, which is not malformed.
pub fn step(header: &[u8], row: usize, epoch: u64, peer: u64) -> Step
    requires { (row + 1280 ≤ length header.now) × (formed_held (held_row_at header.now row).held ≡ true) }
    ensures { Steps (held_row_at header.now row).held epoch peer result }
{
    let rows = row + PEERS;
    let role = role_at(header, row + ROLE);
    if !leads(role, epoch) {
        return Step::Stop;
    }
    let replicas = replicas_at(header, row + REPLICAS);
    let holders = num::get8(header, row + HOLDERS) as usize;
    if !is_holder(replicas, holders, peer) {
        return Step::Stop;
    }
    let count = num::get8(header, row + COUNT) as usize;
    let at = place_of(header, rows, count, peer);
    if count <= at {
        return Step::Align;
    }
    let p = peer_at(header, rows + PEER * at);
    if !p.aligned {
        return Step::Align;
    }
    sends(p.acked.0, num::get8(header, row + LAST))
}

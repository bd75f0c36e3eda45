// What a wait leaves in a host's buffers.
ghost use Rattle.std.specs.Prelude.{◌≡◌, ℕ, ◌+◌, ◌*◌, ◌≤◌, ◌<◌, length, take};
ghost use Rattle.std.proofs.lemmas.List.Edits.{sets};
ghost use Rattle.spec.specs.Layout.Format.{number_at, concat_map};
ghost use Rattle.image_parts.specs.Shape.{in_use};
ghost use Rattle.image_header.specs.Image.{node_at};
ghost use Rattle.calls_header.specs.Waits.{id_bytes, RowsPut};
ghost use Rattle.image_header_check.specs.Rows.{Counts};
ghost use Rattle.calls_wait.specs.Numbers.{numbered};
ghost use Rattle.calls_wait.specs.Waited.{waited_node};

use crate::back::put_waited;
use calls_parts::answer::put_number;
use calls_parts::refusal::Refusal;
use image_parts::bytes::in_use;
use node_shard::Nodes;
use spec::DataNodeId;

// Internal: ids, 8 bytes each.
fn put_ids(out: &mut [u8], ids: [DataNodeId; 32], count: usize)
    requires { 8 * in_use 32 count ≤ length out.old }
    ensures { out.new ≡ sets out.old 0 (concat_map id_bytes (take count ids)) }
{
    let n = in_use(32, count);
    for i in 0..n {
        let x = ids[i];
        num::put8(out, 8 * i, x.0);
    }
}

// Internal: the peers, how many they are, and the header; 23 if an output is too short, and then nothing.
pub fn put_shrink<T: Copy>(
    header: &mut [u8],
    count: usize,
    at: usize,
    clock: u64,
    timeout: u64,
    shrink: Nodes,
    peers: &mut [u8],
    answer: &mut [u8],
    said: T,
) -> Result<T, Refusal>
    requires { Counts header.old count × (at < count) × (number_at 8 header.old (48 + 1280 * at + 88) ≤ 32) }
    ensures { (number : T → ℕ) → RowsPut id_bytes 8 (number said) header.old header.new peers.old peers.new
        answer.old answer.new (take shrink.count shrink.items) (waited_node (node_at header.old) at clock timeout) (numbered number result) }
{
    let n = in_use(32, shrink.count);
    if peers.len() < 8 * n {
        return Err(Refusal::NoRoom);
    }
    if !put_number(answer, n as u64) {
        return Err(Refusal::NoRoom);
    }
    let ids = shrink.items;
    put_ids(peers, ids, shrink.count);
    put_waited(header, count, at, clock, timeout);
    Ok(said)
}

// The neighbours of a search in a host's buffer, 12 bytes each, and their count beside the answer.
ghost use Rattle.std.specs.Prelude.{◌≡◌, ◌*◌, ◌≤◌, map, length};
ghost use Rattle.std.proofs.lemmas.List.Edits.{sets};
ghost use Rattle.spec.specs.Node.Wire.{bits_of};
ghost use Rattle.log_select.specs.Written.{id_of, distance_of};
ghost use Rattle.calls_client_out.specs.Hits.{hits_bytes};
ghost use Rattle.calls_client_out.specs.Found.{ended};
ghost use Rattle.calls_parts.specs.Refusals.{number_of};
ghost use Rattle.calls_search.specs.Served.{hits_ended};

use calls_client_out::hits::room_of;
use calls_parts::answer::put_number;
use calls_parts::refusal::Refusal;
use log_select::select::Hits;

// The bytes of a neighbour, and those of its id.
const HIT: usize = 12;

const ID: usize = 8;

// The bits of a float. No search finds a NaN, which has no bits of its own; it gets those that the definition gives it.
fn bits_of(x: f32) -> u32
    ensures { result ≡ bits_of x }
{
    if x == x {
        return f32::to_bits(x);
    }
    0x7fc0_0000
}

// The neighbours from the start of the buffer.
fn put_hits(hits: &mut [u8], h: Hits)
    requires { (12 * h.count ≤ length hits.old) × (h.count ≤ 1024) × (length h.items ≡ 1025) }
    ensures { hits.new ≡ sets hits.old 0 (hits_bytes (map id_of h.items) (map distance_of h.items) h.count) }
{
    let n = h.count;
    for i in 0..n {
        let x = h.items[i];
        num::put8(hits, HIT * i, x.id);
        num::put4(hits, HIT * i + ID, bits_of(x.distance));
    }
}

// 23 without room for the neighbours or for their count.
pub fn put_found(hits: &mut [u8], answer: &mut [u8], h: Hits) -> Result<(), Refusal>
    requires { (h.count ≤ 1024) × (length h.items ≡ 1025) }
    ensures { ended (number_of result) hits.new answer.new ≡ hits_ended hits.old answer.old h.items h.count }
{
    let n = h.count;
    if room_of(hits.len()) < n {
        return Err(Refusal::NoRoom);
    }
    if !put_number(answer, n as u64) {
        return Err(Refusal::NoRoom);
    }
    put_hits(hits, h);
    Ok(())
}

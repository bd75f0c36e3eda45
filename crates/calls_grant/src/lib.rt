// Lease grant over a header's image, in place (paper 01, 'The node').
#![tactic(auto)]

ghost use Rattle.calls_header.specs.Grants.{Grants};
ghost use Rattle.calls_parts.specs.Refusals.{number_of};

use calls_header::times::late;
use calls_parts::refusal::Refusal;
use image_header::{expiry_code, expiry_of, expiry_time, is_lent};
use image_header_check::formed::is_formed;
use image_header_put::put_end;

// 21 a time above 2^62, 24; then the grant.
pub fn grant(header: &mut [u8], incarnation: u64, sent: u64, lease: u64) -> Result<(), Refusal>
    ensures { Grants header.old header.new incarnation sent lease (number_of result) }
{
    if late(sent, lease) {
        return Err(Refusal::Undecodable);
    }
    if !is_lent(header) {
        return Err(Refusal::Malformed);
    }
    if !is_formed(header) {
        return Err(Refusal::Malformed);
    }
    let count = num::get8(header, 24) as usize;
    let own = num::get8(header, 8);
    let old = expiry_of(num::get4(header, 36), num::get8(header, 40));
    let e = node_admit::lease::grant(own, old, incarnation, sent, lease);
    let code = expiry_code(e);
    let end = expiry_time(e);
    put_end(header, count, code, end);
    Ok(())
}

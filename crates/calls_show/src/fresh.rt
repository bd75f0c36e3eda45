// A new node's header (paper 01, 'The node'; node.rs, Node::new), in the bytes that a host lends.
ghost use Rattle.std.specs.Prelude.{◌≤◌, length};
ghost use Rattle.image_header.specs.Becomes.{HeaderWrites};
ghost use Rattle.calls_header.specs.Fresh.{fresh_node, Freshens};
ghost use Rattle.calls_parts.specs.Refusals.{number_of};

use calls_parts::refusal::Refusal;
use image_header_put::put_head;
use image_layout::header::IMAGE;

// Internal: no shard, no lease and no map known. The first bytes say so: rows past the count are not looked at.
pub fn put_fresh(header: &mut [u8], id: u64, incarnation: u64)
    requires { 10288 ≤ length header.old }
    ensures { HeaderWrites header.old header.new (fresh_node id incarnation) }
{
    put_head(header, id, incarnation, 0, 0, 0, 0);
}

// 24 a short buffer; then no shard, no lease and no map known. What the buffer held is not looked at.
pub fn fresh_node(header: &mut [u8], id: u64, incarnation: u64) -> Result<(), Refusal>
    ensures { Freshens header.old header.new id incarnation (number_of result) }
{
    if header.len() < IMAGE {
        return Err(Refusal::Malformed);
    }
    put_fresh(header, id, incarnation);
    Ok(())
}

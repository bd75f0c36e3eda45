// A query as it stands in a message (paper 01, 'Bytes on the wire', Vector; 'Nearest objects').
ghost use Rattle.std.specs.Prelude.{◌≡◌, length};
ghost use Rattle.log_arrive.specs.Parts.{bits_in, VectorThere};
ghost use Rattle.node_search.specs.Query.{ReadsQuery};

use float_distance::order::bits_in_domain;
use wire_read::Part;
use wire_read::parts::component;

// Whether every component lies in the domain (22 if not); then they are the first places of a column of 32.
pub fn read_query(s: &[u8], v: Part, out: &mut [f32]) -> bool
    requires { (VectorThere s.now v) × (length out.old ≡ 32) }
    ensures { ReadsQuery (bits_in s.now v) result v.len out.new }
{
    let n = v.len;
    for i in 0..n {
        let b = component(s, v, i);
        if !bits_in_domain(b) {
            return false;
        }
        out[i] = f32::from_bits(b);
    }
    true
}

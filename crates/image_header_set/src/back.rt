// The header written back.
ghost use Rattle.image_header.specs.Image.{node_at};
ghost use Rattle.image_header.specs.Becomes.{HeaderWrites};
ghost use Rattle.image_header_check.specs.Rows.{Counts};

use image_header::{expiry_code, expiry_of, expiry_time};
use image_header_put::put_end;

// The whole header in the canonical form.
pub fn put_back(out: &mut [u8], count: usize)
    requires { Counts out.old count }
    ensures { HeaderWrites out.old out.new (node_at out.old) }
{
    let e = expiry_of(num::get4(out, 36), num::get8(out, 40));
    let code = expiry_code(e);
    let end = expiry_time(e);
    put_end(out, count, code, end);
}

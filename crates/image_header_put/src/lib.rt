// A node's header written back in place (docs/IMAGES.md): its first 48 bytes, and every row in use in the canonical form. Internal.
#![tactic(auto)]

ghost use Rattle.std.specs.Prelude.{◌≡◌, map, ◌+◌, ◌≤◌, length};
ghost use Rattle.std.proofs.lemmas.List.Edits.{sets};
ghost use Rattle.spec.specs.Layout.Format.{concat_map};
ghost use Rattle.image_parts.specs.Shape.{Stored, items};
ghost use Rattle.image_header_row.specs.Rows.{held_row_at, held_row_bytes};
ghost use Rattle.image_header_row.specs.Tidy.{tidy_held_row};
ghost use Rattle.image_header.specs.Image.{node_at, head_of};
ghost use Rattle.image_header.specs.Becomes.{HeaderWrites};
ghost use Rattle.image_header_check.specs.Rows.{Counts};
ghost use Rattle.image_header_put.specs.Back.{with_end, EndOf};

use image_header_form::front::front_tidied;
use image_header_form::peers::peers_tidied;
use image_parts::bytes::in_use;

// One row: 1,280 bytes.
pub fn row_tidied(out: &mut [u8], at: usize)
    requires { at + 1280 ≤ length out.old }
    ensures { Stored out.old out.new at (held_row_bytes (tidy_held_row (held_row_at out.old at))) 1280 }
{
    let n = in_use(32, num::get8(out, at + 88) as usize);
    front_tidied(out, at);
    peers_tidied(out, at + 256, n);
}

// The first `count` rows.
fn rows_tidied(out: &mut [u8], count: usize)
    requires { (10288 ≤ length out.old) × (count ≤ 8) }
    ensures { out.new ≡ sets out.old 48 (concat_map held_row_bytes (map tidy_held_row (items count (held_row_at out.old) 1280 48))) }
{
    for i in 0..count {
        row_tidied(out, 48 + 1280 * i);
    }
}

// The first 48 bytes.
pub fn put_head(
    out: &mut [u8],
    id: u64,
    incarnation: u64,
    version: u64,
    count: u64,
    code: u32,
    end: u64,
)
    requires { 10288 ≤ length out.old }
    ensures { Stored out.old out.new 0 (head_of id incarnation version count code end) 48 }
{
    num::put8(out, 0, id);
    num::put8(out, 8, incarnation);
    num::put8(out, 16, version);
    num::put8(out, 24, count);
    num::put4(out, 32, 0);
    num::put4(out, 36, code);
    num::put8(out, 40, end);
}

// The header with another end of its lease, `code` 1 and a time, or 0 and 0.
pub fn put_end(out: &mut [u8], count: usize, code: u32, end: u64)
    requires { Counts out.old count × EndOf code end }
    ensures { HeaderWrites out.old out.new (with_end (node_at out.old) code end) }
{
    let id = num::get8(out, 0);
    let incarnation = num::get8(out, 8);
    let version = num::get8(out, 16);
    put_head(out, id, incarnation, version, count as u64, code, end);
    rows_tidied(out, count);
}

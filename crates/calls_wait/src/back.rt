// A header after a wait: one shard's peers changed, every row in use in the canonical form, in place. Internal.
ghost use Rattle.std.specs.Prelude.{◌≡◌, map, ◌+◌, ◌*◌, ◌≤◌, ◌<◌, length, set};
ghost use Rattle.std.proofs.lemmas.List.Edits.{sets};
ghost use Rattle.spec.specs.Layout.Format.{number_at, concat_map};
ghost use Rattle.image_parts.specs.Shape.{Stored, items};
ghost use Rattle.image_header_row.specs.Rows.{held_row_at, held_row_bytes};
ghost use Rattle.image_header_row.specs.Tidy.{tidy_held_row};
ghost use Rattle.image_header.specs.Image.{node_at};
ghost use Rattle.image_header.specs.Becomes.{HeaderWrites};
ghost use Rattle.image_header_check.specs.Rows.{Counts};
ghost use Rattle.calls_wait.specs.Waited.{waited_held_row, waited_node};

use image_header::{expiry_code, expiry_of, expiry_time};
use image_header_form::front::front_tidied;
use image_header_form::peers::peers_waited;
use image_header_put::{put_head, row_tidied};

// The row of the shard that is waited for: 1,280 bytes.
fn row_waited(out: &mut [u8], at: usize, clock: u64, timeout: u64)
    requires { (at + 1280 ≤ length out.old) × (number_at 8 out.old (at + 88) ≤ 32) }
    ensures { Stored out.old out.new at (held_row_bytes (tidy_held_row (waited_held_row (held_row_at out.old at) clock timeout))) 1280 }
{
    let n = num::get8(out, at + 88) as usize;
    let last = num::get8(out, at + 72);
    front_tidied(out, at);
    peers_waited(out, at + 256, n, last, clock, timeout);
}

// The first `count` rows.
fn rows_waited(out: &mut [u8], count: usize, at: usize, clock: u64, timeout: u64)
    requires { (10288 ≤ length out.old) × (count ≤ 8) × (at < count) × (number_at 8 out.old (48 + 1280 * at + 88) ≤ 32) }
    ensures { out.new ≡ sets out.old 48 (concat_map held_row_bytes (map tidy_held_row
        (set (items count (held_row_at out.old) 1280 48) at (waited_held_row (held_row_at out.old (48 + 1280 * at)) clock timeout)))) }
{
    for i in 0..count {
        if i == at {
            row_waited(out, 48 + 1280 * i, clock, timeout);
        } else {
            row_tidied(out, 48 + 1280 * i);
        }
    }
}

pub fn put_waited(out: &mut [u8], count: usize, at: usize, clock: u64, timeout: u64)
    requires { Counts out.old count × (at < count) × (number_at 8 out.old (48 + 1280 * at + 88) ≤ 32) }
    ensures { HeaderWrites out.old out.new (waited_node (node_at out.old) at clock timeout) }
{
    let id = num::get8(out, 0);
    let incarnation = num::get8(out, 8);
    let version = num::get8(out, 16);
    let e = expiry_of(num::get4(out, 36), num::get8(out, 40));
    let code = expiry_code(e);
    let end = expiry_time(e);
    put_head(out, id, incarnation, version, count as u64, code, end);
    rows_waited(out, count, at, clock, timeout);
}

// A node's header written back in place with the numbers of one shard's entries and rows changed. Internal.
ghost use Rattle.std.specs.Prelude.{◌≡◌, map, ◌+◌, ◌≤◌, ◌<◌, length};
ghost use Rattle.std.proofs.lemmas.List.Edits.{sets};
ghost use Rattle.spec.specs.Layout.Format.{concat_map};
ghost use Rattle.image_parts.specs.Shape.{Stored};
ghost use Rattle.image_header_row.specs.Rows.{held_row_at, held_row_bytes};
ghost use Rattle.image_header_row.specs.Tidy.{tidy_held_row};
ghost use Rattle.image_header.specs.Image.{node_at};
ghost use Rattle.image_header.specs.Becomes.{HeaderWrites};
ghost use Rattle.image_header_check.specs.Rows.{Counts};
ghost use Rattle.image_header_counts.specs.Counts.{counted, counted_rows, with_counts};

use image_header::{expiry_code, expiry_of, expiry_time};
use image_header_put::{put_head, row_tidied};
use image_layout::header::{LAST, ROW, ROWS, STORED};

// The row at a position, tidied, with these numbers.
fn row_counted(out: &mut [u8], at: usize, last: u64, stored: u64)
    requires { at + 1280 ≤ length out.old }
    ensures { Stored out.old out.new at (held_row_bytes (tidy_held_row (counted (held_row_at out.old at) last stored))) 1280 }
{
    row_tidied(out, at);
    num::put8(out, at + STORED, stored);
    num::put8(out, at + LAST, last);
}

// The first `count` rows, that of the shard with these numbers.
fn rows_counted(out: &mut [u8], count: usize, row: usize, last: u64, stored: u64)
    requires { (10288 ≤ length out.old) × (count ≤ 8) × (row < count) }
    ensures { out.new ≡ sets out.old 48 (concat_map held_row_bytes (map tidy_held_row (counted_rows out.old count row last stored))) }
{
    for i in 0..count {
        if i == row {
            row_counted(out, ROWS + ROW * i, last, stored);
        } else {
            row_tidied(out, ROWS + ROW * i);
        }
    }
}

// The header with these numbers of the shard at place `row`.
pub fn put_counts(out: &mut [u8], count: usize, row: usize, last: u64, stored: u64)
    requires { Counts out.old count × (row < count) }
    ensures { HeaderWrites out.old out.new (with_counts (node_at out.old) row last stored) }
{
    let id = num::get8(out, 0);
    let incarnation = num::get8(out, 8);
    let version = num::get8(out, 16);
    let e = expiry_of(num::get4(out, 36), num::get8(out, 40));
    let code = expiry_code(e);
    let end = expiry_time(e);
    put_head(out, id, incarnation, version, count as u64, code, end);
    rows_counted(out, count, row, last, stored);
}

// The vector table of a log made anew in the bytes of its store, as after a cut (paper 01, 'The log'; shard.rs, adopt). The entries are played
// into two columns of its own and the rows put at the end, since what lies behind the rows stays as it was. Internal.
#![tactic(auto)]

ghost use Rattle.std.specs.Prelude.{◌≡◌, ◌≤◌, length};
ghost use Rattle.log_store.specs.Table.{Tabled, rows_played};
ghost use Rattle.image_store.specs.Read.{codes_in};
ghost use Rattle.image_store.specs.Write.{RowsWritten};
ghost use Rattle.image_store_check.specs.Test.{Stands, offsets_in, ids_in};
ghost use Rattle.image_store_append.specs.Put.{Tables};

use image_store::write::write_table;
use image_store_check::columns::{CODES, ENTRIES, IDS, OFFSETS};
use log_store::table::{drop_row, set_row};
use spec::Offset;

// The rows of the first `count` entries, played from none.
fn played(stores: &[u8], base: usize, count: usize, keys: &mut [u64], places: &mut [u64]) -> usize
    requires { (count ≤ 1024) × Stands stores.now base × (length keys.old ≡ 1024) × (length places.old ≡ 1024) }
    ensures { Tabled count keys.old places.old keys.new places.new result
        (rows_played (offsets_in stores.now base) (ids_in stores.now base) (codes_in stores.now base) count) }
{
    let offsets = base + OFFSETS;
    let ids = base + IDS;
    let codes = base + CODES;
    let mut n: usize = 0;
    for i in 0..count {
        let id = num::get8(stores, ids + 8 * i);
        if stores[codes + i] == 1 {
            let offset = num::get8(stores, offsets + 8 * i);
            n = set_row(keys, places, n, id, Offset(offset));
        } else {
            n = drop_row(keys, places, n, id);
        }
    }
    n
}

// Answers how many rows the table of the first `count` entries has.
pub fn make_anew(stores: &mut [u8], base: usize, count: usize) -> usize
    requires { (count ≤ 1024) × Stands stores.old base }
    ensures { Tables stores.old stores.new base
        (rows_played (offsets_in stores.old base) (ids_in stores.old base) (codes_in stores.old base) count) result }
{
    let mut keys = [0u64; ENTRIES];
    let mut places = [0u64; ENTRIES];
    let n = played(stores, base, count, &mut keys, &mut places);
    write_table(stores, base, &keys, &places, n);
    n
}

// What a call changed, written back into the image of a store. Internal: callers have read the store, and tested it.
ghost use Rattle.std.specs.Prelude.{◌+◌, ◌≤◌, length};
ghost use Rattle.log_store.specs.Table.{rows_of};
ghost use Rattle.image_store.specs.Write.{RowsWritten};

use wire_write::put::put_words8;

// The rows of the vector table. Every other byte stays as it was.
pub fn write_table(image: &mut [u8], base: usize, keys: &[u64], places: &[u64], stored: usize)
    requires { (stored ≤ 1024) × (stored ≤ length keys.now) × (stored ≤ length places.now) × (base + 174080 ≤ length image.old) }
    ensures { RowsWritten image.old image.new base (rows_of keys.now places.now stored) }
{
    put_words8(image, base + 157696, &keys[0..stored]);
    put_words8(image, base + 165888, &places[0..stored]);
}

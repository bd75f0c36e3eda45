// A shard map as the bytes that a host owns (docs/IMAGES.md): which map the bytes are read as, and the one form in which it is stored. A buffer
// shorter than the image, or with a code that is not listed, lends no map (24); whether the map that it lends is well formed, counts above their
// arrays included, is `map_check`'s. Bytes past the image, and rows past a count, are neither read nor written; a row in use is written whole. One
// row, read and stored, is crate `image_map_row`; the form in which it is written, crate `image_map_form`. Definitions and laws: no code makes a map
// by value.
#![tactic(auto)]

use map_tables::ShardMap;

// The map that a buffer lends; without one, `map` has no rows.
#[derive(Drop)]
pub struct Lent {
    pub found: bool,
    pub map: ShardMap,
}

// Rows of a new collection in a map's image, in place (docs/IMAGES.md): its own, and those of its shards, each put where it belongs. Rows past the
// new count keep their bytes; `image_map_put` then gives every row in use its one form. Internal.
#![tactic(auto)]

pub mod collections;
pub mod shards;

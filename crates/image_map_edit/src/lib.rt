// Changes of a map's image in place (docs/IMAGES.md): a row put into its table, put over another, or taken out of it, the rows behind it moved.
// Rows past the new count keep their bytes; `image_map_put` then gives every row in use its one form. Internal.
#![tactic(auto)]

pub mod nodes;
pub mod sessions;
pub mod shards;

// Below the map's image, crate `image_map`: one row of each table, read at a position of an image and stored there (docs/IMAGES.md). Internal:
// hosts read and write whole maps.
#![tactic(auto)]

pub mod collections;
pub mod nodes;
pub mod sessions;
pub mod shards;

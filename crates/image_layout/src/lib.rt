// Where the parts of the images stand (docs/IMAGES.md): every number of a header and of the stores, with its name. Those of a map are in
// `image_map_check`.
#![tactic(auto)]

pub mod header;
pub mod stores;

// Below the map's image, crate `image_map`: each row of the map in the one form in which it is written, so that a row's bytes depend on what it is
// read as. Internal: hosts read and write whole maps.
#![tactic(auto)]

mod beside;
pub mod tidy;

// The rows of a header's image (docs/IMAGES.md): what a held shard's row and a peer are read as, the role and a peer read and written. The one form in
// which a row is written is specs/Tidy.antt. Internal: what `image_header` is made of.
#![tactic(auto)]

pub mod held;
pub mod peers;

// The lent state of a call that names a shard, as byte images (docs/IMAGES.md): the header's, and those of the eight stores side by side; what
// they are read as, and what a call leaves of them. Definitions and laws: the code that finds the shard in them is `image_node_check`. Internal.
use node_header::Node;

// Whether the bytes lend a state, and then the header, and the shard's place in it or the count.
#[derive(Drop)]
pub struct Picked {
    pub found: bool,
    pub at: usize,
    pub node: Node,
}

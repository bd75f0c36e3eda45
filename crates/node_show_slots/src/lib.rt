// Below crate `node_show`: the slots that the shards held after a map get (paper 01, 'The node', 'Map shown'), and their laws. They are given out in
// the header's bytes, by crate `calls_show_walk`.

// What NewEpoch does at a node (paper 01, 'Who is turned down'; node.rs, on_new_epoch), said of a header and the columns of the one store that it
// is lent, that of the shard which the message names. A shard that is not held begins in the lowest free slot, with no entries, whatever that
// slot's store holds. Definitions and laws: no code has them by value.

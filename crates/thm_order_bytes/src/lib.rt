// Paper 02, 2.10: two Writes at a node in either order, over the byte images that a host owns, by the contracts of the entry points for C
// alone. This crate holds definitions and theorems only.

// Paper 02, 2.10: two Writes at a node in either order, by the contracts of the calls alone. This crate holds definitions and theorems only.

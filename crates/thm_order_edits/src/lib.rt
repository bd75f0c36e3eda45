// Paper 02, 2.10: two edits appended to a lent store in either order, by the contracts of `append` and `search` alone. This crate
// holds definitions and theorems only.

// The engine never refuses its own map. This crate holds definitions and theorems only: specs/ says what an intact image of a map is and what a
// list of requests applied to it is, each related to the bytes that it was lent by its own contract; proofs/ shows that no such list, from an
// empty map on, leaves an image that a call finds malformed (24).

// The engine never refuses its own state, of the byte images that a host owns. This crate holds definitions and theorems only: specs/ says what
// intact images are and what a list of the engine's calls on them is, each related to what it was lent by its own contract; proofs/ shows that
// no such list, from a fresh node on, leaves images that a call finds malformed (24).

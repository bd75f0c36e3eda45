// Demand 3 of the calls themselves. This crate holds definitions and theorems only: specs/ says what a run of the engine's calls is, each
// related to what it was lent by its own contract; proofs/ shows that no such run loses an acknowledged write.

// Demand 3 of the entry points for C. This crate holds definitions and theorems only: specs/ says what a run of the entry points is, each on
// byte images that its own contract relates; proofs/ shows that no such run loses an acknowledged write.

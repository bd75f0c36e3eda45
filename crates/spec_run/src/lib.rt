// The rules of a run. This crate holds definitions and computed cases only: specs/ says what a run is, in the words of paper 01, 'Rules of a run', and
// what demand 3 claims of it; proofs/ has small runs that the checker computes. What every run keeps is proved in crate `thm_run`.

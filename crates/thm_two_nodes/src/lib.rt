// Two nodes that hold a shard together, as images byte for byte, and a run of the entry points for C on them in which an alignment comes late
// and twice. There is no function here: proofs/ has the calls, each shown to keep its contract, and puts demand 3 to the run.

// One node that holds a shard alone, as images byte for byte, and a list of calls on them that keep their contracts. There is no function
// here: proofs/ has the images and the calls, and the theorems about runs and lists of calls are put to them.

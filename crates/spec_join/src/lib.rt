// Paper 02, 2.2: what the join of a collection's answers is, and that it is one search. This file holds no function: definitions stand in specs/, the
// laws in proofs/.

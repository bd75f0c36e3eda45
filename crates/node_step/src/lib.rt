// The request of a worker's step (paper 01, 'The node', the worker's step; 'Rules of a run', Messages; node.rs, replicate_to), said of a header, the
// store of the shard that the worker serves, and an output that the request is written into. Definitions and laws: the call is `calls_worker`.

// What applying a request to a map comes to (paper 01, 'The shard map', and 'Who is turned down'; the source's StateMachine::apply): definitions and
// laws that the calls in place are proved by. No code makes a map by value.
use map_tables::{ShardMap, Verdict};

// The answer to a request, with the map afterwards.
#[derive(Drop)]
pub struct Settled {
    pub verdict: Verdict,
    pub map: ShardMap,
}

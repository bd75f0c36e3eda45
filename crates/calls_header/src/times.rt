// The times that a call is asked with.
ghost use Rattle.std.specs.Prelude.{◌≡◌};
ghost use Rattle.spec.specs.Lists.{◌or◌};
ghost use Rattle.spec.specs.Node.Calls.{late_time};

use node_shard::LAST_TIME;

// Internal: one of two times is above 2^62.
pub fn late(a: u64, b: u64) -> bool
    ensures { result ≡ late_time a or late_time b }
{
    if LAST_TIME < a {
        return true;
    }
    LAST_TIME < b
}

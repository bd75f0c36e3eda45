// The request of the worker's step (paper 01, 'The node', 'Rules of a run', Messages; node.rs, replicate_to).
ghost use Rattle.std.specs.Prelude.{◌≡◌};
ghost use Rattle.spec.specs.Node.Worker as worker;

use spec::{Offset, Role};

// Internal: the last offset when this node became primary.
pub fn end_of(role: Role) -> Offset
    ensures { result.0 ≡ worker.end_offset role }
{
    match role {
        Role::Backup => Offset(0),
        Role::Primary { epoch: _, end } => end,
    }
}

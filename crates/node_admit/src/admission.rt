// Whether Write, Search and NewEpoch go on to the log (node.rs: write, search, on_new_epoch).
ghost use Rattle.std.specs.Prelude.{◌≡◌};
ghost use Rattle.spec.specs.Node.Backup.{leads_from};

use spec::Role;

// Internal: a primary at that epoch or above it.
pub fn leads_from(role: Role, epoch: u64) -> bool
    ensures { result ≡ leads_from role epoch }
{
    match role {
        Role::Backup => false,
        Role::Primary { epoch: e, end: _ } => epoch <= e.0,
    }
}

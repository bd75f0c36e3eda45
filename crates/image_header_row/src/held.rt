// Internal: the role in the row of a held shard.
ghost use Rattle.std.specs.Prelude.{◌≡◌, ◌++◌, ◌+◌, ◌≤◌, length};
ghost use Rattle.spec.specs.Layout.Format.{bytes_of};
ghost use Rattle.image_parts.specs.Shape.{Stored};
ghost use Rattle.image_header_row.specs.Rows.{role_at, role_bytes};

use spec::{Epoch, Offset, Role};

pub fn role_at(s: &[u8], at: usize) -> Role
    requires { at + 20 ≤ length s.now }
    ensures { result ≡ role_at s.now at }
{
    let code = num::get4(s, at);
    let epoch = Epoch(num::get8(s, at + 4));
    let end = Offset(num::get8(s, at + 12));
    if code == 0 {
        return Role::Backup;
    }
    Role::Primary {
        epoch: epoch,
        end: end,
    }
}

fn put_primary(out: &mut [u8], at: usize, code: u32, epoch: u64, end: u64)
    requires { at + 20 ≤ length out.old }
    ensures { Stored out.old out.new at ((bytes_of 4 code ++ bytes_of 8 epoch) ++ bytes_of 8 end) 20 }
{
    num::put4(out, at, code);
    num::put8(out, at + 4, epoch);
    num::put8(out, at + 12, end);
}

pub fn put_role(out: &mut [u8], at: usize, r: Role)
    requires { at + 20 ≤ length out.old }
    ensures { Stored out.old out.new at (role_bytes r) 20 }
{
    match r {
        Role::Backup => put_primary(out, at, 0, 0, 0),
        Role::Primary { epoch, end } => put_primary(out, at, 1, epoch.0, end.0),
    }
}

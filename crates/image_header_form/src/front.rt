// A held shard's row but for its peers, in place: 256 bytes.
ghost use Rattle.std.specs.Prelude.{◌≡◌, ◌++◌, ◌+◌, ◌≤◌, length};
ghost use Rattle.spec.specs.Layout.Format.{bytes_of};
ghost use Rattle.image_parts.specs.Shape.{Stored};
ghost use Rattle.image_parts.specs.Parts.{key_bytes, replicas_bytes};
ghost use Rattle.image_header_row.specs.Rows.{role_bytes, held_row_at};
ghost use Rattle.image_header_row.specs.Tidy.{tidy_held_row};
ghost use Rattle.image_header_form.specs.Rows.{counts_bytes, front_bytes};

use image_header_row::held::{put_role, role_at};
use image_parts::bytes::in_use;
use image_parts::codes::{flag_code, flag_of, metric_code, metric_of};
use image_parts::keys::{key_at, put_key};
use image_parts::replicas::{put_replicas, replicas_at};
use image_parts::tidy::{tidy_key, tidy_replicas};
use map_tables::ShardKey;
use spec::{Replica, Role};

// Slot, stored, epoch, last, how many replicas, how many peers, metric, own: 56 bytes.
fn put_counts(
    out: &mut [u8],
    at: usize,
    slot: u64,
    stored: u64,
    epoch: u64,
    last: u64,
    holders: u64,
    count: u64,
    metric: u32,
    own: u32,
)
    requires { at + 56 ≤ length out.old }
    ensures { Stored out.old out.new at (counts_bytes slot stored epoch last holders count metric own) 56 }
{
    num::put8(out, at, slot);
    num::put8(out, at + 8, stored);
    num::put8(out, at + 16, epoch);
    num::put8(out, at + 24, last);
    num::put8(out, at + 32, holders);
    num::put8(out, at + 40, count);
    num::put4(out, at + 48, metric);
    num::put4(out, at + 52, own);
}

// All 256 bytes.
fn put_front(
    out: &mut [u8],
    at: usize,
    key: ShardKey,
    slot: u64,
    stored: u64,
    epoch: u64,
    last: u64,
    holders: u64,
    count: u64,
    metric: u32,
    own: u32,
    role: Role,
    replicas: [Replica; 8],
)
    requires { at + 256 ≤ length out.old }
    ensures { Stored out.old out.new at
        (((((key_bytes key ++ bytes_of 4 0) ++ counts_bytes slot stored epoch last holders count metric own) ++ bytes_of 4 0) ++ role_bytes role)
        ++ replicas_bytes replicas) 256 }
{
    put_key(out, at, key);
    num::put4(out, at + 44, 0);
    put_counts(
        out,
        at + 48,
        slot,
        stored,
        epoch,
        last,
        holders,
        count,
        metric,
        own,
    );
    num::put4(out, at + 104, 0);
    put_role(out, at + 108, role);
    put_replicas(out, at + 128, replicas);
}

// The canonical form.
pub fn front_tidied(out: &mut [u8], at: usize)
    requires { at + 1280 ≤ length out.old }
    ensures { Stored out.old out.new at (front_bytes (tidy_held_row (held_row_at out.old at))) 256 }
{
    let slots = at + 48;
    let tables = at + 56;
    let epochs = at + 64;
    let lasts = at + 72;
    let holds = at + 80;
    let counts = at + 88;
    let metrics = at + 96;
    let owns = at + 100;
    let roles = at + 108;
    let rows = at + 128;
    let key = tidy_key(key_at(out, at));
    let slot = num::get8(out, slots);
    let stored = num::get8(out, tables);
    let epoch = num::get8(out, epochs);
    let last = num::get8(out, lasts);
    let held = num::get8(out, holds) as usize;
    let holders = in_use(8, held);
    let count = in_use(32, num::get8(out, counts) as usize);
    let metric = metric_code(metric_of(num::get4(out, metrics)));
    let own = flag_code(flag_of(num::get4(out, owns)));
    let role = role_at(out, roles);
    let copies = replicas_at(out, rows);
    let replicas = tidy_replicas(copies, held);
    put_front(
        out,
        at,
        key,
        slot,
        stored,
        epoch,
        last,
        holders as u64,
        count as u64,
        metric,
        own,
        role,
        replicas,
    );
}

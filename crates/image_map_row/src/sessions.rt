// Internal: the row of a session: 80 bytes.
ghost use Rattle.std.specs.Prelude.{◌≡◌, ◌+◌, ◌≤◌, length};
ghost use Rattle.image_parts.specs.Shape.{Stored};
ghost use Rattle.image_map_row.specs.Rows.{session_at, session_bytes};

use image_parts::codes::{outcome_coded, outcome_of};
use image_parts::keys::{key_at, put_key};
use map_tables::SessionRow;

pub fn session_at(s: &[u8], at: usize) -> SessionRow
    requires { at + 80 ≤ length s.now }
    ensures { result ≡ session_at s.now at }
{
    let key = key_at(s, at + 16);
    let outcome = outcome_of(
        num::get4(s, at + 60),
        num::get8(s, at + 64),
        num::get8(s, at + 72),
    );
    SessionRow {
        client: num::get8(s, at),
        seq: num::get8(s, at + 8),
        outcome: outcome,
        key: key,
    }
}

pub fn put_session(out: &mut [u8], at: usize, r: SessionRow)
    requires { at + 80 ≤ length out.old }
    ensures { Stored out.old out.new at (session_bytes r) 80 }
{
    let outcome = r.outcome;
    let coded = outcome_coded(outcome);
    num::put8(out, at, r.client);
    num::put8(out, at + 8, r.seq);
    put_key(out, at + 16, r.key);
    num::put4(out, at + 60, coded.code);
    num::put8(out, at + 64, coded.first);
    num::put8(out, at + 72, coded.second);
}

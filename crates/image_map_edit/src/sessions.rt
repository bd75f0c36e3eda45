// What is remembered of a client, put where it belongs.
ghost use Rattle.std.specs.Prelude.{◌≡◌, not, ◌+◌, ◌*◌, ◌≤◌, ltb, length};
ghost use Rattle.spec.specs.Lists.{◌and◌, put};
ghost use Rattle.spec.specs.Map.Apply.{session_below};
ghost use Rattle.map_tables.specs.View.{view_session};
ghost use Rattle.image_map_row.specs.Rows.{session_at};
ghost use Rattle.image_map_check.specs.Places.{SessionsCount};
ghost use Rattle.image_map_put.specs.Few.{Few};
ghost use Rattle.image_map_put.specs.Rows.{read_as};
ghost use Rattle.image_map_edit.specs.Becomes.{SessionsBecome};

use image_map_check::layout::{SESSION, SESSIONS, SESSIONS_USED};
use image_map_check::room::session_room;
use image_map_row::sessions::put_session;
use image_move::move_up;
use map_tables::SessionRow;

const SESSION_WORDS: usize = 10;

// Whether the place is in use, and not by a later client.
fn is_level(s: &[u8], count: usize, place: usize, client: u64) -> bool
    requires { SessionsCount s.now count }
    ensures { result ≡ (ltb place count and not (ltb client (view_session (session_at s.now (21416 + 80 * place))).client)) }
{
    if count <= place {
        return false;
    }
    if client < num::get8(s, SESSIONS + SESSION * place) {
        return false;
    }
    true
}

// Over the session of its client, or before those of the clients above it.
pub fn session_put(out: &mut [u8], row: SessionRow)
    requires { Few out.old × (length (put session_below (view_session row) (read_as out.old).sessions) ≤ 64) }
    ensures { SessionsBecome out.old out.new (put session_below (view_session row) (read_as out.old).sessions) }
{
    let count = num::get8(out, SESSIONS_USED) as usize;
    let place = session_room(out, count, row.client);
    let at = SESSIONS + SESSION * place;
    if is_level(out, count, place, row.client) {
        put_session(out, at, row);
        return;
    }
    move_up(
        out,
        at,
        SESSIONS + SESSION * (place + 1),
        SESSION_WORDS * (count - place),
    );
    put_session(out, at, row);
    num::put8(out, SESSIONS_USED, (count + 1) as u64);
}

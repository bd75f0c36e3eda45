// An outcome remembered of its client, and the map written back.
ghost use Rattle.std.specs.Prelude.{◌≤◌, length};
ghost use Rattle.spec.specs.Lists.{put};
ghost use Rattle.spec.specs.Map.Apply.{session_below};
ghost use Rattle.map_tables.specs.View.{view_session};
ghost use Rattle.image_map_put.specs.Few.{Few};
ghost use Rattle.image_map_put.specs.Rows.{read_as};
ghost use Rattle.image_map_edit.specs.Other.{with_sessions, with_version};
ghost use Rattle.calls_apply.specs.Settles.{Writes};

use image_map_check::layout::VERSION;
use image_map_edit::sessions::session_put;
use image_map_put::put_tidied;
use map_tables::SessionRow;

pub fn remember(map: &mut [u8], version: u64, row: SessionRow)
    requires { Few map.old × (length (put session_below (view_session row) (read_as map.old).sessions) ≤ 64) }
    ensures { Writes map.old map.new (with_version (with_sessions (read_as map.old) (put session_below (view_session row) (read_as map.old).sessions)) version) }
{
    session_put(map, row);
    num::put8(map, VERSION, version);
    put_tidied(map);
}

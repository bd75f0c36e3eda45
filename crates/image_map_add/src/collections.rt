// A collection that the map does not have yet.
ghost use Rattle.std.specs.Prelude.{◌≡◌, false, ◌<◌};
ghost use Rattle.spec.specs.Lists.{put};
ghost use Rattle.spec.specs.Layout.Format.{number_at};
ghost use Rattle.spec.specs.Map.Create.{collection_below, has_collection};
ghost use Rattle.map_tables.specs.Names.{view_name};
ghost use Rattle.map_tables.specs.View.{view_collection};
ghost use Rattle.image_map_put.specs.Few.{Few};
ghost use Rattle.image_map_put.specs.Rows.{read_as};
ghost use Rattle.image_map_edit.specs.Becomes.{CollectionsBecome};

use image_map_check::layout::{COLLECTION, COLLECTION_WORDS, COLLECTIONS, COLLECTIONS_USED};
use image_map_check::room::collection_room;
use image_map_row::collections::put_collection;
use image_move::move_up;
use map_tables::CollectionRow;

// Before those of the names above it.
pub fn collection_put(out: &mut [u8], row: CollectionRow)
    requires { Few out.old × (number_at 8 out.old 16 < 16) × (has_collection (view_name row.name) (read_as out.old).collections ≡ false) }
    ensures { CollectionsBecome out.old out.new (put collection_below (view_collection row) (read_as out.old).collections) }
{
    let count = num::get8(out, COLLECTIONS_USED) as usize;
    let place = collection_room(out, count, row.name);
    let at = COLLECTIONS + COLLECTION * place;
    move_up(
        out,
        at,
        COLLECTIONS + COLLECTION * (place + 1),
        COLLECTION_WORDS * (count - place),
    );
    put_collection(out, at, row);
    num::put8(out, COLLECTIONS_USED, (count + 1) as u64);
}

// A collection taken out of the table.
ghost use Rattle.std.specs.Prelude.{◌≡◌, not};
ghost use Rattle.spec.specs.Keys.{same_name};
ghost use Rattle.spec.specs.Lists.{filter};
ghost use Rattle.map_tables.specs.Names.{view_name};
ghost use Rattle.image_map_put.specs.Few.{Few};
ghost use Rattle.image_map_put.specs.Rows.{read_as};
ghost use Rattle.image_map_edit.specs.Becomes.{CollectionsBecome};

use crate::rows::rows_without;
use image_map_check::layout::{COLLECTION_WORDS, COLLECTIONS, COLLECTIONS_USED};
use map_tables::Name;

// The collections but the one of that name.
pub fn collections_without(out: &mut [u8], name: Name)
    requires { Few out.old }
    ensures { CollectionsBecome out.old out.new (filter (λ c. not (same_name c.name (view_name name))) (read_as out.old).collections) }
{
    let count = num::get8(out, COLLECTIONS_USED) as usize;
    let kept = rows_without(out, COLLECTIONS, COLLECTION_WORDS, count, name);
    num::put8(out, COLLECTIONS_USED, kept as u64);
}

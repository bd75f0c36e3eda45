// The test of a lent store (paper 01, 'Who is turned down', 24) straight from the bytes of its image: no column is copied. Internal.
#![tactic(auto)]

pub mod columns;
pub mod entries;
mod hints;
pub mod rows;
mod settled;

ghost use Rattle.std.specs.Prelude.{◌≡◌};
ghost use Rattle.image_store.specs.Image.{well_formed_image};
ghost use Rattle.image_store_check.specs.Test.{Stands};

use columns::ENTRIES;

// Whether the store that begins at `base`, of so many entries and rows, is well formed (24 if not).
pub fn is_store(s: &[u8], base: usize, count: usize, stored: usize) -> bool
    requires { Stands s.now base }
    ensures { result ≡ well_formed_image s.now base count stored }
{
    if ENTRIES < count {
        return false;
    }
    if ENTRIES < stored {
        return false;
    }
    if !entries::entries_fit(s, base, count) {
        return false;
    }
    settled::table_played(s, base, count, stored)
}

// The ids that a host gives, 8 bytes each. Internal.
ghost use Rattle.std.specs.Prelude.{◌≡◌, cond, ◌+◌, ◌≤◌, leb, length};
ghost use Rattle.spec.specs.Layout.Format.{number_at};
ghost use Rattle.calls_count.specs.Calls.{Loaded};

use image_map_count::IdSet;

// The id at a place, or 0 past the last.
fn id_at(s: &[u8], at: usize) -> u64
    requires { at ≤ 24 }
    ensures { result ≡ cond (leb (at + 8) (length s.now)) (number_at 8 s.now at) 0 }
{
    if s.len() < at + 8 {
        return 0;
    }
    num::get8(s, at)
}

// Of more than 4 only the count is true, which is 36.
pub fn load_ids(s: &[u8]) -> IdSet
    ensures { Loaded s.now result }
{
    let items = [id_at(s, 0), id_at(s, 8), id_at(s, 16), id_at(s, 24)];
    let count = s.len() / 8;
    IdSet {
        items: items,
        count: count,
    }
}

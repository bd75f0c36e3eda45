// The shard that a key names.
ghost use Rattle.std.specs.Prelude.{◌≡◌, take};
ghost use Rattle.spec.specs.Lists.{lead};
ghost use Rattle.map_tables.specs.Names.{view_key};
ghost use Rattle.node_header.specs.View.{other_key};
ghost use Rattle.image_header.specs.Image.{node_at};
ghost use Rattle.image_header_check.specs.Rows.{Counts};

use image_parts::keys::key_at;
use map_tables::ShardKey;
use map_tables::names::same_key;

// Its place, or `count`.
pub fn place_at(s: &[u8], count: usize, key: ShardKey) -> usize
    requires { Counts s.now count }
    ensures { result ≡ lead (other_key (view_key key)) (take count (node_at s.now).held) }
{
    for i in 0..count {
        let k = key_at(s, 48 + 1280 * i);
        if same_key(k, key) {
            return i;
        }
    }
    count
}

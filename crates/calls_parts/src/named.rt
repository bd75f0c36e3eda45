// The key of a shard that a host names, by its collection's name and its number. Internal.
ghost use Rattle.std.specs.Prelude.{◌≡◌, true};
ghost use Rattle.spec.specs.Limits.{max_name};
ghost use Rattle.wire_put.specs.Fields.{key_given, text_fits};
ghost use Rattle.map_tables.specs.Names.{view_key};

use map_names::key_of;
use map_tables::ShardKey;
use wire_read::{KeyPart, Part};

// Of a name that a message can carry.
pub fn key_named(name: &[u8], shard: u32) -> ShardKey
    requires { text_fits max_name name.now ≡ true }
    ensures { view_key result ≡ key_given name.now shard }
{
    let part = KeyPart {
        name: Part {
            at: 0,
            len: name.len(),
        },
        shard: shard,
    };
    key_of(name, part)
}

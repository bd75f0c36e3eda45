// Internal: the row of a collection: 56 bytes.
ghost use Rattle.std.specs.Prelude.{◌≡◌, ◌+◌, ◌≤◌, length};
ghost use Rattle.image_parts.specs.Shape.{Stored};
ghost use Rattle.image_map_row.specs.Rows.{collection_at, collection_bytes};

use image_parts::codes::{metric_code, metric_of};
use image_parts::keys::{name_at, put_name};
use map_tables::{CollectionRow, Spec};

pub fn collection_at(s: &[u8], at: usize) -> CollectionRow
    requires { at + 56 ≤ length s.now }
    ensures { result ≡ collection_at s.now at }
{
    let name = name_at(s, at);
    let dimension = num::get4(s, at + 40);
    let metric = metric_of(num::get4(s, at + 44));
    let spec = Spec {
        dimension: dimension,
        metric: metric,
        shards: num::get4(s, at + 48),
        replication: num::get4(s, at + 52),
    };
    CollectionRow {
        name: name,
        spec: spec,
    }
}

pub fn put_collection(out: &mut [u8], at: usize, c: CollectionRow)
    requires { at + 56 ≤ length out.old }
    ensures { Stored out.old out.new at (collection_bytes c) 56 }
{
    put_name(out, at, c.name);
    let spec = c.spec;
    let metric = spec.metric;
    num::put4(out, at + 40, spec.dimension);
    num::put4(out, at + 44, metric_code(metric));
    num::put4(out, at + 48, spec.shards);
    num::put4(out, at + 52, spec.replication);
}

// Internal: the pairs of an epoch table, handed over as two columns, and the code of a metric.
ghost use Rattle.std.specs.Prelude.{◌≡◌, ◌+◌, ◌*◌, ◌≤◌, length};
ghost use Rattle.std.proofs.lemmas.List.Edits.{sets};
ghost use Rattle.spec.specs.Layout.Parts.{metric_code};
ghost use Rattle.wire_put.specs.Tables.{table_bytes};

use spec::Metric;

// Internal: the pairs of a table, 16 bytes each.
pub fn put_ends(out: &mut [u8], at: usize, epochs: &[u64], ends: &[u64])
    requires { (at + 16 * length epochs.now ≤ length out.old) × (length epochs.now ≡ length ends.now) × (length epochs.now ≤ 1024) }
    ensures { out.new ≡ sets out.old at (table_bytes epochs.now ends.now) }
{
    for i in 0..epochs.len() {
        num::put8(out, at + 16 * i, epochs[i]);
        num::put8(out, at + 16 * i + 8, ends[i]);
    }
}

// Internal: the code of a metric.
pub fn metric_code(metric: Metric) -> u8
    ensures { result ≡ metric_code metric }
{
    match metric {
        Metric::Euclidean => 0,
        Metric::Angular => 1,
    }
}

// Internal: the operands of 10, with a placement handed over as columns (specs/Placed.antt): whether the lists fit, their
// size, and the stores.
ghost use Rattle.std.specs.Prelude.{◌≡◌, true, ◌+◌, ◌*◌, ◌≤◌, length};
ghost use Rattle.std.proofs.lemmas.List.Edits.{sets};
ghost use Rattle.wire_put.specs.Placed.{create_head, lists_bytes, lists_fit, lists_long, lists_size};

use crate::ends::metric_code;
use crate::entry::put_list;
use crate::put::{put_byte, put_text};
use spec::Metric;

// Internal: whether each of the first n lists has at most 8 nodes.
pub fn lists_fit(counts: &[u8], n: usize) -> bool
    requires { n ≤ length counts.now }
    ensures { result ≡ lists_fit counts.now n 0 }
{
    for i in 0..n {
        if 8 < counts[i] {
            return false;
        }
    }
    true
}

// Internal: the bytes that the first n lists take.
pub fn lists_size(counts: &[u8], n: usize) -> usize
    requires { (n ≤ length counts.now) × (n ≤ 16) × (lists_fit counts.now n 0 ≡ true) }
    ensures { result ≡ lists_size counts.now n 0 }
{
    let mut total: usize = 0;
    for i in 0..n {
        let len = counts[i] as usize;
        total += 1 + 8 * len;
    }
    total
}

// Internal: whether both columns have n lists, the nodes 8 for each.
pub fn lists_long(counts: &[u8], nodes: &[u64], n: usize) -> bool
    requires { n ≤ 16 }
    ensures { result ≡ lists_long counts.now nodes.now n }
{
    if counts.len() < n {
        return false;
    }
    8 * n <= nodes.len()
}

// Internal: the first n lists, one after the other.
pub fn put_lists(out: &mut [u8], at: usize, counts: &[u8], nodes: &[u64], n: usize)
    requires { (at + lists_size counts.now n 0 ≤ length out.old) × (n ≤ length counts.now) × (8 * n ≤ length nodes.now) × (lists_fit counts.now n 0 ≡ true) × (n ≤ 16) }
    ensures { out.new ≡ sets out.old at (lists_bytes counts.now nodes.now n 0) }
{
    let mut p = at;
    for i in 0..n {
        let len = counts[i] as usize;
        let from = 8 * i;
        put_list(out, p, &nodes[from..from + len]);
        p += 1 + 8 * len;
    }
}

// Internal: the operands before the lists: name, dimension, metric, shards, replication and how many lists follow.
pub fn put_create_head(
    out: &mut [u8],
    name: &[u8],
    dimension: u32,
    metric: Metric,
    shards: u32,
    replication: u32,
    n: u8,
)
    requires { (73 ≤ length out.old) × (length name.now ≤ 32) }
    ensures { out.new ≡ sets out.old 26 (create_head name.now dimension metric shards replication n) }
{
    put_text(out, 26, 32, name);
    num::put4(out, 59, dimension);
    put_byte(out, 63, metric_code(metric));
    num::put4(out, 64, shards);
    num::put4(out, 68, replication);
    put_byte(out, 72, n);
}

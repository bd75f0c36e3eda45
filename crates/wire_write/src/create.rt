// The writer of 01 with the command 10: a placement handed over as columns (`wire_put` specs/Placed.antt).
ghost use Rattle.spec.specs.Lists.{◌and◌};
ghost use Rattle.spec.specs.Layout.Request.{encode_request};
ghost use Rattle.wire_put.specs.Placed.{create_given, lists_fit, lists_long};
ghost use Rattle.wire_write.specs.Requests.{request_given};
ghost use Rattle.wire_write.specs.Written.{Written};
ghost use Rattle.wire_put.specs.Fields.{count_fits, text_fits};

use crate::Unwritten;
use spec::Metric;
use wire_put::fit::{count_fits, text_fits};
use wire_put::lists::{lists_fit, lists_long, lists_size, put_create_head, put_lists};
use wire_put::put::put_request_head;

// 10 Create: name, dimension, metric, shards, replication, the first n lists of the columns.
pub fn write_create(
    out: &mut [u8],
    index: u64,
    client: u64,
    seq: u64,
    name: &[u8],
    dimension: u32,
    metric: Metric,
    shards: u32,
    replication: u32,
    counts: &[u8],
    nodes: &[u64],
    n: usize,
) -> Result<usize, Unwritten>
    ensures { Written (text_fits 32 name.now and (count_fits 0 16 n and (lists_long counts.now nodes.now n and lists_fit counts.now n 0))) (encode_request (request_given index client seq (create_given counts.now nodes.now name.now dimension metric shards replication n))) out.old out.new result }
{
    if !text_fits(name, 32) {
        return Err(Unwritten::Unfit);
    }
    if !count_fits(0, 16, n) {
        return Err(Unwritten::Unfit);
    }
    if !lists_long(counts, nodes, n) {
        return Err(Unwritten::Unfit);
    }
    if !lists_fit(counts, n) {
        return Err(Unwritten::Unfit);
    }
    let lists = lists_size(counts, n);
    if out.len() < 73 + lists {
        return Err(Unwritten::Short);
    }
    put_request_head(out, index, client, seq, 0x10);
    put_create_head(out, name, dimension, metric, shards, replication, n as u8);
    put_lists(out, 73, counts, nodes, n);
    Ok(73 + lists)
}

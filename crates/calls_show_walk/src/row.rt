// Internal: the row after of one shard that lists this node, and its workers (node.rs, on_map).
ghost use Rattle.std.specs.Prelude.{◌≡◌, true, ◌+◌, ◌*◌, ◌≤◌, length};
ghost use Rattle.spec.specs.Layout.Format.{number_at};
ghost use Rattle.map_tables.specs.Counted.{Sized};
ghost use Rattle.node_header.specs.Formed.{formed_node};
ghost use Rattle.image_header_row.specs.Rows.{held_row_at};
ghost use Rattle.image_header.specs.Image.{node_at};
ghost use Rattle.image_header_check.specs.Rows.{Counts};
ghost use Rattle.image_header_set.specs.Row.{RowBecomes};
ghost use Rattle.image_map.specs.Image.{collections_at};
ghost use Rattle.calls_show_row.specs.Row.{Ready};
ghost use Rattle.calls_show_walk.specs.Rows.{Before, ShowsPut, PlaceOf, Keeps, Knows, Takes};

use crate::Full;
use calls_show_row::row::{refresh_row, show_row, workers_of};
use calls_show_row::starts::put_workers;
use image_header_begin::rows::set_begun;
use image_header_check::place::place_at;
use image_layout::header::{ID, ROW, ROWS};
use image_map_check::layout::{COLLECTION, COLLECTIONS, COLLECTIONS_USED};
use image_map_check::place::collection_place;
use image_map_row::collections::collection_at;
use map_tables::{ShardKey, ShardRow};
use spec::Metric;
use wire_put::put::put_bytes;

// As many shards as a node holds.
const HELD: usize = 8;

// What a shard has that has no slot yet.
const NO_SLOT: u64 = 8;

// The row of a held shard as it is.
fn copy_row(rows: &mut [u8], to: usize, header: &[u8], from: usize)
    requires { (to + 1280 ≤ length rows.old) × (from + 1280 ≤ length header.now) }
    ensures { RowBecomes rows.old rows.new to (held_row_at header.now from) }
{
    let end = from + ROW;
    put_bytes(rows, to, &header[from..end]);
}

// .. or that of a shard which begins.
fn put_before(
    rows: &mut [u8],
    to: usize,
    header: &[u8],
    held: usize,
    at: usize,
    key: ShardKey,
    metric: Metric,
)
    requires { (to + 1280 ≤ length rows.old) × (10288 ≤ length header.now) × (held ≤ 8) }
    ensures { Before header.now rows.old rows.new to held at key metric }
{
    if at < held {
        copy_row(rows, to, header, ROWS + ROW * at);
        return;
    }
    set_begun(rows, to, key, NO_SLOT, 0, metric);
}

// A shard whose collection the map has: its workers, from the row as it was, and its row after; tells how many workers stand then.
fn show_put(
    rows: &mut [u8],
    to: usize,
    me: u64,
    row: ShardRow,
    metric: Metric,
    workers: &mut [u8],
    many: usize,
) -> Result<usize, Full>
    requires { Ready rows.old to row × (many ≤ 224) × (13824 ≤ length workers.old) }
    ensures { ShowsPut rows.old rows.new workers.old workers.new to me row metric many result }
{
    let more = workers_of(rows, to, me, row).ok_or(Full)?;
    put_workers(workers, 54 * many, rows, to, me, row, metric);
    show_row(rows, to, me, row);
    Ok(many + more)
}

// A shard whose collection the map lacks: none begins, and a held one only learns its replicas.
fn keep_row(
    rows: &mut [u8],
    count: usize,
    header: &[u8],
    held: usize,
    at: usize,
    row: ShardRow,
    many: usize,
) -> Result<Option<usize>, Full>
    requires { Counts header.now held × (formed_node (node_at header.now) ≡ true) × PlaceOf (node_at header.now) row at × (Sized row)
        × (10240 ≤ length rows.old) }
    ensures { Keeps (node_at header.now) row rows.old rows.new count many result }
{
    if held <= at {
        return Ok(None);
    }
    if HELD <= count {
        return Err(Full);
    }
    let to = ROW * count;
    copy_row(rows, to, header, ROWS + ROW * at);
    refresh_row(rows, to, row);
    Ok(Some(many))
}

// A shard whose collection the map has.
fn know_row(
    rows: &mut [u8],
    count: usize,
    header: &[u8],
    held: usize,
    at: usize,
    row: ShardRow,
    metric: Metric,
    workers: &mut [u8],
    many: usize,
) -> Result<Option<usize>, Full>
    requires { Counts header.now held × (formed_node (node_at header.now) ≡ true) × PlaceOf (node_at header.now) row at × (Sized row)
        × (10240 ≤ length rows.old) × (13824 ≤ length workers.old) × (many ≤ 32 * count) }
    ensures { Knows (node_at header.now) row metric rows.old rows.new workers.old workers.new count many result }
{
    if HELD <= count {
        return Err(Full);
    }
    let to = ROW * count;
    let me = num::get8(header, ID);
    let key = row.key;
    put_before(rows, to, header, held, at, key, metric);
    let after = show_put(rows, to, me, row, metric, workers, many)?;
    Ok(Some(after))
}

// One shard that lists this node: how many workers stand then, or that it is not held after.
pub fn take_row(
    header: &[u8],
    held: usize,
    map: &[u8],
    row: ShardRow,
    rows: &mut [u8],
    count: usize,
    workers: &mut [u8],
    many: usize,
) -> Result<Option<usize>, Full>
    requires { Counts header.now held × (formed_node (node_at header.now) ≡ true) × (26536 ≤ length map.now) × (number_at 8 map.now 16 ≤ 16) × (Sized row)
        × (10240 ≤ length rows.old) × (13824 ≤ length workers.old) × (many ≤ 32 * count) }
    ensures { Takes (node_at header.now) (collections_at map.now) row rows.old rows.new
        workers.old workers.new count many result }
{
    let key = row.key;
    let name = key.collection;
    let at = place_at(header, held, key);
    let known = num::get8(map, COLLECTIONS_USED) as usize;
    let c = collection_place(map, known, name);
    if known <= c {
        return keep_row(rows, count, header, held, at, row, many);
    }
    let col = collection_at(map, COLLECTIONS + COLLECTION * c);
    let spec = col.spec;
    let metric = spec.metric;
    know_row(rows, count, header, held, at, row, metric, workers, many)
}

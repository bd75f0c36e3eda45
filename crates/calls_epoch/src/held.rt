// A NewEpoch at the shard that it names, past Undecodable. Internal.
ghost use Rattle.std.specs.Prelude.{◌≡◌, false, ◌*◌, ◌≤◌, ◌<◌, length};
ghost use Rattle.map_tables.specs.Names.{view_key};
ghost use Rattle.log_domain.specs.Parts.{TableThere};
ghost use Rattle.image_header.specs.Image.{node_at};
ghost use Rattle.image_header.specs.Becomes.{HeaderWrites};
ghost use Rattle.image_header_check.specs.Rows.{Counts};
ghost use Rattle.image_header_set.specs.Row.{aligned_held};
ghost use Rattle.node_lent.specs.Lend.{with_store};
ghost use Rattle.image_store_check.specs.Test.{Stands};
ghost use Rattle.image_node_check.specs.Find.{AbsentIn, FoundIn};
ghost use Rattle.image_node_grow.specs.Grow.{row_in};
ghost use Rattle.node_epoch.specs.NewEpochs.{NewEpochsAt};
ghost use Rattle.calls_parts.specs.Refusals.{number_of};
ghost use Rattle.calls_peer.specs.PeerCalls.{AtShard, announces, buffers};
ghost use Rattle.calls_epoch.specs.Asked.{Asked, stale_by, Keeps};

use calls_parts::refusal::Refusal;
use calls_peer_out::put_reply;
use image_header_begin::begin;
use image_header_row::held::role_at;
use image_header_set::back::put_back;
use image_header_set::set::set_aligned;
use image_layout::header::{EPOCH, LAST, ROLE, ROW, ROWS, SHARDS, SLOT, STORED};
use image_layout::stores::STORE;
use image_node_check::find;
use image_store_align::kept;
use image_store_table::make_anew;
use map_tables::ShardKey;
use node_admit::admission::leads_from;
use node_lent::Lent;
use spec::{Epoch, Offset, Role};
use wire_read::NewEpochPart;
use wire_write::Reply;

// The bytes of a reply.
const REPLY: usize = 9;

// As many shards as a node holds.
const HELD: u64 = 8;

// Whether the shard leads from that epoch on, or is past it.
fn is_stale(role: Role, own: u64, epoch: u64) -> bool
    ensures { result ≡ stale_by role own epoch }
{
    if leads_from(role, epoch) {
        return true;
    }
    epoch < own
}

// How many entries of the log at `base` stay; at the own epoch all do.
fn kept_of(
    stores: &[u8],
    base: usize,
    last: usize,
    own: u64,
    message: &[u8],
    p: NewEpochPart,
) -> usize
    requires { (last ≤ 1024) × Stands stores.now base × TableThere message.now p.table }
    ensures { Keeps stores.now message.now base last own p result }
{
    let epoch = p.epoch;
    if epoch.0 == own {
        return last;
    }
    let table = p.table;
    let end = p.end;
    kept(stores, base, last, message, table, end.0)
}

// The header with the shard at place `at` aligned: under the epoch, with so many entries and rows, and its role left.
fn realign(header: &mut [u8], at: usize, epoch: u64, last: u64, stored: u64)
    requires { Counts header.old (node_at header.old).count × (at < (node_at header.old).count) }
    ensures { HeaderWrites header.old header.new
        (with_store (node_at header.old) at (aligned_held (row_in header.old at).held epoch last) stored) }
{
    let count = num::get8(header, SHARDS) as usize;
    set_aligned(header, ROWS + ROW * at, epoch, last, stored);
    put_back(header, count);
}

// Past StaleEpoch, and with room for the reply: the log aligned, its table made anew where it was cut, and the role left.
fn adopt_at(
    header: &mut [u8],
    at: usize,
    stores: &mut [u8],
    key: ShardKey,
    message: &[u8],
    p: NewEpochPart,
    reply: &mut [u8],
) -> Result<(), Refusal>
    requires { FoundIn header.old stores.old (view_key key) at × Asked message.now p (view_key key) × (9 ≤ length reply.old)
        × (stale_by (row_in header.old at).held.role (row_in header.old at).held.epoch.0 p.epoch.0 ≡ false) }
    ensures { AtShard NewEpochsAt announces (view_key key) message.now
        (buffers header.old stores.old reply.old)
        (buffers header.new stores.new reply.new) (number_of result) }
{
    let row = ROWS + ROW * at;
    let own = num::get8(header, row + EPOCH);
    let slot = num::get8(header, row + SLOT) as usize;
    let last = num::get8(header, row + LAST) as usize;
    let stored = num::get8(header, row + STORED);
    let base = slot * STORE;
    let epoch = p.epoch;
    let left = kept_of(stores, base, last, own, message, p);
    if left < last {
        let rows = make_anew(stores, base, left);
        realign(header, at, epoch.0, left as u64, rows as u64);
        return put_reply(reply, Reply::Adopted(Offset(left as u64)));
    }
    realign(header, at, epoch.0, last as u64, stored);
    put_reply(reply, Reply::Adopted(Offset(last as u64)))
}

// At its place in the header: StaleEpoch, NoRoom for the reply, then the log is aligned.
fn new_epoch_at(
    header: &mut [u8],
    at: usize,
    stores: &mut [u8],
    key: ShardKey,
    message: &[u8],
    p: NewEpochPart,
    reply: &mut [u8],
) -> Result<(), Refusal>
    requires { FoundIn header.old stores.old (view_key key) at × Asked message.now p (view_key key) }
    ensures { AtShard NewEpochsAt announces (view_key key) message.now
        (buffers header.old stores.old reply.old)
        (buffers header.new stores.new reply.new) (number_of result) }
{
    let row = ROWS + ROW * at;
    let own = num::get8(header, row + EPOCH);
    let role = role_at(header, row + ROLE);
    let epoch = p.epoch;
    if is_stale(role, own, epoch.0) {
        return put_reply(reply, Reply::StaleEpoch(Epoch(own)));
    }
    if reply.len() < REPLY {
        return Err(Refusal::NoRoom);
    }
    adopt_at(header, at, stores, key, message, p, reply)
}

// A shard that is not held: NoRoom for a ninth or for the reply, then it begins with no entries. No store is touched.
fn begin_at(
    header: &mut [u8],
    stores: &[u8],
    key: ShardKey,
    message: &[u8],
    p: NewEpochPart,
    reply: &mut [u8],
) -> Result<(), Refusal>
    requires { AbsentIn header.old stores.now (view_key key) × Asked message.now p (view_key key) }
    ensures { AtShard NewEpochsAt announces (view_key key) message.now
        (buffers header.old stores.now reply.old)
        (buffers header.new stores.now reply.new) (number_of result) }
{
    if HELD <= num::get8(header, SHARDS) {
        return Err(Refusal::NoRoom);
    }
    if reply.len() < REPLY {
        return Err(Refusal::NoRoom);
    }
    let epoch = p.epoch;
    let metric = p.metric;
    begin(header, key, epoch, metric);
    put_reply(reply, Reply::Adopted(Offset(0)))
}

// Malformed; a shard that is not held begins.
pub fn at_shard(
    header: &mut [u8],
    stores: &mut [u8],
    key: ShardKey,
    message: &[u8],
    p: NewEpochPart,
    reply: &mut [u8],
) -> Result<(), Refusal>
    requires { Asked message.now p (view_key key) }
    ensures { AtShard NewEpochsAt announces (view_key key) message.now
        (buffers header.old stores.old reply.old)
        (buffers header.new stores.new reply.new) (number_of result) }
{
    let found = find(header, stores, key);
    match found {
        Lent::Malformed => Err(Refusal::Malformed),
        Lent::Absent => begin_at(header, stores, key, message, p, reply),
        Lent::At(at) => new_epoch_at(header, at, stores, key, message, p, reply),
    }
}

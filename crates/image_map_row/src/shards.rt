// Internal: the row of a shard: 272 bytes.
ghost use Rattle.std.specs.Prelude.{◌≡◌, ◌+◌, ◌≤◌, length};
ghost use Rattle.image_parts.specs.Shape.{Stored};
ghost use Rattle.image_map_row.specs.Rows.{shard_at, shard_bytes, holders_at, in_sync_at};

use image_parts::codes::{primary_code, primary_node, primary_of};
use image_parts::keys::{key_at, put_key};
use image_parts::replicas::{ids_at, put_ids, put_replicas, replicas_at};
use map_tables::{Holders, InSync, ShardRow};
use spec::Epoch;

pub fn holders_at(s: &[u8], at: usize) -> Holders
    requires { at + 272 ≤ length s.now }
    ensures { result ≡ holders_at s.now at }
{
    let items = replicas_at(s, at + 80);
    Holders {
        items: items,
        count: num::get8(s, at + 64) as usize,
    }
}

pub fn in_sync_at(s: &[u8], at: usize) -> InSync
    requires { at + 272 ≤ length s.now }
    ensures { result ≡ in_sync_at s.now at }
{
    let items = ids_at(s, at + 208);
    InSync {
        items: items,
        count: num::get8(s, at + 72) as usize,
    }
}

pub fn shard_at(s: &[u8], at: usize) -> ShardRow
    requires { at + 272 ≤ length s.now }
    ensures { result ≡ shard_at s.now at }
{
    let key = key_at(s, at);
    let primary = primary_of(num::get4(s, at + 44), num::get8(s, at + 48));
    let epoch = Epoch(num::get8(s, at + 56));
    let replicas = holders_at(s, at);
    let insync = in_sync_at(s, at);
    ShardRow {
        key: key,
        replicas: replicas,
        primary: primary,
        insync: insync,
        epoch: epoch,
    }
}

pub fn put_shard(out: &mut [u8], at: usize, r: ShardRow)
    requires { at + 272 ≤ length out.old }
    ensures { Stored out.old out.new at (shard_bytes r) 272 }
{
    let last = at + 208;
    let primary = r.primary;
    let holders = r.replicas;
    let replicas = holders.items;
    let insync = r.insync;
    let ids = insync.items;
    put_key(out, at, r.key);
    num::put4(out, at + 44, primary_code(primary));
    num::put8(out, at + 48, primary_node(primary));
    num::put8(out, at + 56, r.epoch.0);
    num::put8(out, at + 64, holders.count as u64);
    num::put8(out, at + 72, insync.count as u64);
    put_replicas(out, at + 80, replicas);
    put_ids(out, last, ids);
}

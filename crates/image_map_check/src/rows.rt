// One row of each table in its bytes, by itself and after the row before it; the first row of a table, at place 0, has none before it.
ghost use Rattle.std.specs.Prelude.{◌≡◌, ◌+◌, ◌≤◌, length, take};
ghost use Rattle.spec.specs.Map.Change.{id_below, holds};
ghost use Rattle.image_parts.specs.Parts.{replicas_at};
ghost use Rattle.image_map_row.specs.Rows.{node_at, collection_at, shard_at, session_at};
ghost use Rattle.map_check.specs.Rows.{follows, node_under, node_ok, collection_under, collection_ok, shard_under, shard_ok, session_under, session_ok, in_sync_fits};

use image_parts::keys::{key_at, name_at};
use map_tables::names::{key_below, name_below};

pub fn node_follows(s: &[u8], i: usize, before: usize, at: usize) -> bool
    requires { (before + 96 ≤ length s.now) × (at + 96 ≤ length s.now) }
    ensures { result ≡ follows node_under node_ok i (node_at s.now before) (node_at s.now at) }
{
    if 64 < num::get8(s, at + 24) {
        return false;
    }
    if i == 0 {
        return true;
    }
    num::get8(s, before) < num::get8(s, at)
}

pub fn collection_follows(s: &[u8], i: usize, before: usize, at: usize) -> bool
    requires { (before + 56 ≤ length s.now) × (at + 56 ≤ length s.now) }
    ensures { result ≡ follows collection_under collection_ok i (collection_at s.now before) (collection_at s.now at) }
{
    if 32 < num::get8(s, at) {
        return false;
    }
    if i == 0 {
        return true;
    }
    let a = name_at(s, before);
    let b = name_at(s, at);
    name_below(a, b)
}

// Whether one of the replicas from `at` on is the node's.
fn is_held(s: &[u8], at: usize, count: usize, id: u64) -> bool
    requires { (at + 128 ≤ length s.now) × (count ≤ 8) }
    ensures { result ≡ holds id (take count (replicas_at s.now at)) }
{
    for i in 0..count {
        if num::get8(s, at + 16 * i) == id {
            return true;
        }
    }
    false
}

// The ids in sync of the shard at a position: they rise, and each is a holder's.
fn in_sync_fits(s: &[u8], at: usize, held: usize, count: usize) -> bool
    requires { (at + 272 ≤ length s.now) × (held ≤ 8) × (count ≤ 8) × (held ≡ (shard_at s.now at).replicas.count) × (count ≡ (shard_at s.now at).insync.count) }
    ensures { result ≡ in_sync_fits (shard_at s.now at).replicas (shard_at s.now at).insync }
{
    let first = at + 208;
    let replicas = at + 80;
    let mut last: usize = 0;
    for i in 0..count {
        let before = num::get8(s, first + 8 * last);
        let id = num::get8(s, first + 8 * i);
        if !id_follows(s, replicas, held, i, before, id) {
            return false;
        }
        last = i;
    }
    true
}

// An id at place i, after the one before it.
fn id_follows(s: &[u8], at: usize, held: usize, i: usize, before: u64, id: u64) -> bool
    requires { (at + 128 ≤ length s.now) × (held ≤ 8) }
    ensures { result ≡ follows id_below (λ d. holds d.0 (take held (replicas_at s.now at))) i (record { 0 = before }) (record { 0 = id }) }
{
    if i == 0 {
        return is_held(s, at, held, id);
    }
    if id <= before {
        return false;
    }
    is_held(s, at, held, id)
}

fn shard_fits(s: &[u8], at: usize) -> bool
    requires { at + 272 ≤ length s.now }
    ensures { result ≡ shard_ok (shard_at s.now at) }
{
    if 32 < num::get8(s, at) {
        return false;
    }
    let held = num::get8(s, at + 64);
    if 8 < held {
        return false;
    }
    let synced = num::get8(s, at + 72);
    if 8 < synced {
        return false;
    }
    in_sync_fits(s, at, held as usize, synced as usize)
}

pub fn shard_follows(s: &[u8], i: usize, before: usize, at: usize) -> bool
    requires { (before + 272 ≤ length s.now) × (at + 272 ≤ length s.now) }
    ensures { result ≡ follows shard_under shard_ok i (shard_at s.now before) (shard_at s.now at) }
{
    if !shard_fits(s, at) {
        return false;
    }
    if i == 0 {
        return true;
    }
    let a = key_at(s, before);
    let b = key_at(s, at);
    key_below(a, b)
}

// What is remembered of a client, by its code: 1 never is, and of those that name a collection the name has its limit.
fn session_fits(s: &[u8], at: usize) -> bool
    requires { at + 80 ≤ length s.now }
    ensures { result ≡ session_ok (session_at s.now at) }
{
    let code = num::get4(s, at + 60);
    let size = num::get8(s, at + 16);
    match code {
        0 => true,
        1 => false,
        2 => size <= 32,
        3 => true,
        4 => true,
        5 => true,
        6 => size <= 32,
        7 => true,
        8 => true,
        9 => size <= 32,
        10 => size <= 32,
        11 => true,
        12 => true,
        13 => true,
        14 => true,
        15 => true,
        16 => true,
        _ => false,
    }
}

pub fn session_follows(s: &[u8], i: usize, before: usize, at: usize) -> bool
    requires { (before + 80 ≤ length s.now) × (at + 80 ≤ length s.now) }
    ensures { result ≡ follows session_under session_ok i (session_at s.now before) (session_at s.now at) }
{
    if !session_fits(s, at) {
        return false;
    }
    if i == 0 {
        return true;
    }
    num::get8(s, before) < num::get8(s, at)
}

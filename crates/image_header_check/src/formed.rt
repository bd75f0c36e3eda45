// The header's test (paper 01, 'Who is turned down', 24), over its bytes.
ghost use Rattle.std.specs.Prelude.{◌≡◌, ◌+◌, ◌≤◌, length, take, drop};
ghost use Rattle.spec.specs.Lists.{any, every, rising};
ghost use Rattle.spec.specs.Node.Shards.{row_below};
ghost use Rattle.spec.specs.Node.WellFormed.{ack_fits};
ghost use Rattle.node_header.specs.Formed.{on_slot, slots_fit, held_row_fits, held_row_below, formed_node};
ghost use Rattle.image_header_row.specs.Rows.{peers_at, held_row_at};
ghost use Rattle.image_header.specs.Image.{node_at};
ghost use Rattle.image_header_check.specs.Rows.{Counts};

use image_parts::keys::key_at;
use map_tables::names::key_below;
use node_shard::LAST_TIME;
use node_shard::rows::both;

// The peers from `at` on.
fn acks_fit(s: &[u8], at: usize, count: usize) -> bool
    requires { (at + 1024 ≤ length s.now) × (count ≤ 32) }
    ensures { result ≡ every ack_fits (take count (peers_at s.now at)) }
{
    for i in 0..count {
        if LAST_TIME < num::get8(s, at + 32 * i + 8) {
            return false;
        }
    }
    true
}

fn rows_rise(s: &[u8], at: usize, count: usize) -> bool
    requires { (at + 1024 ≤ length s.now) × (count ≤ 32) }
    ensures { result ≡ rising row_below (take count (peers_at s.now at)) }
{
    if count == 0 {
        return true;
    }
    for i in 1..count {
        if num::get8(s, at + 32 * i) <= num::get8(s, at + 32 * (i - 1)) {
            return false;
        }
    }
    true
}

// One shard.
fn row_fits(s: &[u8], at: usize) -> bool
    requires { at + 1280 ≤ length s.now }
    ensures { result ≡ held_row_fits (held_row_at s.now at) }
{
    if 32 < num::get8(s, at) {
        return false;
    }
    if 1024 < num::get8(s, at + 56) {
        return false;
    }
    if 8 < num::get8(s, at + 80) {
        return false;
    }
    if 1024 < num::get8(s, at + 72) {
        return false;
    }
    let n = num::get8(s, at + 88);
    if 32 < n {
        return false;
    }
    let count = n as usize;
    both(rows_rise(s, at + 256, count), acks_fit(s, at + 256, count))
}

// Every shard.
fn all_fit(s: &[u8], count: usize) -> bool
    requires { Counts s.now count }
    ensures { result ≡ every held_row_fits (take count (node_at s.now).held) }
{
    for i in 0..count {
        if !row_fits(s, 48 + 1280 * i) {
            return false;
        }
    }
    true
}

// Keys that rise.
fn keys_rise(s: &[u8], count: usize) -> bool
    requires { Counts s.now count }
    ensures { result ≡ rising held_row_below (take count (node_at s.now).held) }
{
    if count == 0 {
        return true;
    }
    for i in 1..count {
        let a = key_at(s, 48 + 1280 * (i - 1));
        let b = key_at(s, 48 + 1280 * i);
        if !key_below(a, b) {
            return false;
        }
    }
    true
}

// Whether a shard from `from` on has the slot.
pub fn slot_after(s: &[u8], from: usize, count: usize, slot: u64) -> bool
    requires { Counts s.now count × (from ≤ count) }
    ensures { result ≡ any (on_slot slot) (drop from (take count (node_at s.now).held)) }
{
    for i in from..count {
        if num::get8(s, 48 + 1280 * i + 48) == slot {
            return true;
        }
    }
    false
}

// Each slot is one of the eight, and no two shards have the same.
fn slots_fit(s: &[u8], count: usize) -> bool
    requires { Counts s.now count }
    ensures { result ≡ slots_fit (take count (node_at s.now).held) }
{
    for i in 0..count {
        let slot = num::get8(s, 48 + 1280 * i + 48);
        if 8 <= slot {
            return false;
        }
        if slot_after(s, i + 1, count, slot) {
            return false;
        }
    }
    true
}

// A header that is not malformed.
pub fn is_formed(s: &[u8]) -> bool
    requires { 10288 ≤ length s.now }
    ensures { result ≡ formed_node (node_at s.now) }
{
    let n = num::get8(s, 24);
    if 8 < n {
        return false;
    }
    let count = n as usize;
    let rise = keys_rise(s, count);
    let fit = all_fit(s, count);
    let apart = slots_fit(s, count);
    both(rise, both(fit, apart))
}

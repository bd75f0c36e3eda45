// A node's header as the bytes that a host owns (docs/IMAGES.md): what they are read as, and what a write leaves. A buffer shorter than the
// image, or with a code that is not listed, lends no header (24); whether the header that it lends is well formed, counts above their
// arrays included, is for `image_header_check`. Bytes past the image, and shards past the count, are neither read nor written. A shard in use is
// written in the canonical form: zeros in the free places of its row, so that the bytes are those of what it is read as.
#![tactic(auto)]

ghost use Rattle.std.specs.Prelude.{◌≡◌, ◌≤◌, length};
ghost use Rattle.image_header_row.specs.Rows.{expiry_of, expiry_code, expiry_time};
ghost use Rattle.image_header.specs.Image.{shard_codes, flags_listed, codes_listed, header_lent};

use image_parts::bytes::{codes_below, count_at};
use node_header::Node;

// The header that a buffer lends; without one, `node` has no shards.
#[derive(Drop)]
pub struct Lent {
    pub found: bool,
    pub node: Node,
}

// Internal: a lease's end as a code and a time, and back.
pub fn expiry_of(code: u32, time: u64) -> Option<u64>
    ensures { result ≡ expiry_of code time }
{
    if code == 0 { None } else { Some(time) }
}

pub fn expiry_code(e: Option<u64>) -> u32
    ensures { result ≡ expiry_code e }
{
    match e {
        None => 0,
        Some(_) => 1,
    }
}

pub fn expiry_time(e: Option<u64>) -> u64
    ensures { result ≡ expiry_time e }
{
    match e {
        None => 0,
        Some(t) => t,
    }
}

fn shard_codes(s: &[u8]) -> bool
    requires { 10288 ≤ length s.now }
    ensures { result ≡ shard_codes s.now }
{
    let n = count_at(s, 24, 8);
    if !codes_below(s, 2, 4, 1, 36) {
        return false;
    }
    if !codes_below(s, 2, 1280, n, 144) {
        return false;
    }
    if !codes_below(s, 2, 1280, n, 148) {
        return false;
    }
    codes_below(s, 2, 1280, n, 156)
}

// A peer has four flags: a number with any other bit is no code of theirs.
fn flags_listed(s: &[u8], n: usize) -> bool
    requires { (10288 ≤ length s.now) × (n ≤ 8) }
    ensures { result ≡ flags_listed s.now n 48 }
{
    for i in 0..n {
        let row = 48 + 1280 * i;
        let peers = count_at(s, row + 88, 32);
        if !codes_below(s, 16, 32, peers, row + 280) {
            return false;
        }
    }
    true
}

fn codes_listed(s: &[u8]) -> bool
    requires { 10288 ≤ length s.now }
    ensures { result ≡ codes_listed s.now }
{
    if !shard_codes(s) {
        return false;
    }
    flags_listed(s, count_at(s, 24, 8))
}

// Whether a buffer lends a header.
pub fn is_lent(s: &[u8]) -> bool
    ensures { result ≡ header_lent s.now }
{
    if s.len() < 10288 {
        return false;
    }
    codes_listed(s)
}

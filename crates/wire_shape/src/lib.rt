// Below the reader, crate `wire_read`: whether a value of a format stands at a position, and where it ends. Each function is
// the shape test of one format of `spec`'s Layout, as specs/Skip.antt says it. Internal: hosts call `wire_read::decode`.
#![tactic(auto)]

ghost use Rattle.std.specs.Prelude.{◌≡◌, ◌+◌, ◌≤◌, length};
ghost use Rattle.spec.specs.Layout.Format.{all_within, word, text, below, many, ◌▸◌};
ghost use Rattle.spec.specs.Layout.Parts.{u64, op_f, placement_f, entry_f, entries_f};
ghost use Rattle.spec.specs.Layout.Request.{command_f, create_f, register_f};
ghost use Rattle.wire_shape.specs.Skip.{skip, skip_n};

// k bytes of any kind.
pub fn skip_word(s: &[u8], at: usize, k: usize) -> Option<usize>
    ensures { result ≡ skip (word k) s.now at }
{
    if s.len() < at {
        return None;
    }
    if s.len() - at < k {
        return None;
    }
    Some(at + k)
}

// Whether the n bytes at a position lie between lo and hi.
fn within(s: &[u8], at: usize, n: usize, lo: u8, hi: u8) -> bool
    requires { at + n ≤ length s.now }
    ensures { result ≡ all_within lo hi n s.now at }
{
    for i in 0..n {
        let b = s[at + i];
        if b < lo {
            return false;
        }
        if hi < b {
            return false;
        }
    }
    true
}

// A text of at most c bytes, filled up with zeros, and then k bytes of any kind.
pub fn skip_text(s: &[u8], at: usize, c: usize, k: usize) -> Option<usize>
    requires { k ≤ 64 }
    ensures { result ≡ skip (text c ▸ word k) s.now at }
{
    if s.len() <= at {
        return None;
    }
    if s.len() - at <= c {
        return None;
    }
    if s.len() - at - c <= k {
        return None;
    }
    let n = s[at] as usize;
    if c < n {
        return None;
    }
    if within(s, at + 1, n, 0x20, 0x7E) {
        if within(s, at + 1 + n, c - n, 0, 0) {
            return Some(at + 1 + c + k);
        }
    }
    None
}

// A byte below m.
pub fn skip_below(s: &[u8], at: usize, m: u8) -> Option<usize>
    ensures { result ≡ skip (below m) s.now at }
{
    if s.len() <= at {
        return None;
    }
    if s[at] < m {
        return Some(at + 1);
    }
    None
}

// A count byte between lo and hi, and that many items of w bytes.
pub fn skip_run(s: &[u8], at: usize, lo: u8, hi: u8, w: usize) -> Option<usize>
    requires { w ≤ 16 }
    ensures { result ≡ skip (many 1 lo hi (word w)) s.now at }
{
    if s.len() <= at {
        return None;
    }
    let n = s[at];
    if n < lo {
        return None;
    }
    if hi < n {
        return None;
    }
    skip_word(s, at + 1, (n as usize) * w)
}

// A count of two bytes, at most hi, and that many items of w bytes.
pub fn skip_long_run(s: &[u8], at: usize, hi: u16, w: usize) -> Option<usize>
    requires { w ≤ 16 }
    ensures { result ≡ skip (many 2 0 hi (word w)) s.now at }
{
    if s.len() < at {
        return None;
    }
    if s.len() - at < 2 {
        return None;
    }
    let n = num::get2(s, at);
    if hi < n {
        return None;
    }
    skip_word(s, at + 2, (n as usize) * w)
}

// An operation: 1 id vector, or 2 id.
pub fn skip_op(s: &[u8], at: usize) -> Option<usize>
    ensures { result ≡ skip op_f s.now at }
{
    if s.len() <= at {
        return None;
    }
    let t = s[at];
    if t == 1 {
        let p = skip_word(s, at + 1, 8)?;
        return skip_run(s, p, 1, 32, 4);
    }
    if t == 2 {
        return skip_word(s, at + 1, 8);
    }
    None
}

// An entry: epoch offset op.
pub fn skip_entry(s: &[u8], at: usize) -> Option<usize>
    ensures { result ≡ skip entry_f s.now at }
{
    let p = skip_word(s, at, 16)?;
    skip_op(s, p)
}

// n entries.
pub fn skip_entries_n(s: &[u8], at: usize, n: usize) -> Option<usize>
    ensures { result ≡ skip_n entry_f s.now n at }
{
    let mut p = at;
    for i in 0..n {
        let q = skip_entry(s, p)?;
        p = q;
    }
    Some(p)
}

// A count of two bytes, at most 256, and that many entries.
pub fn skip_entries(s: &[u8], at: usize) -> Option<usize>
    ensures { result ≡ skip entries_f s.now at }
{
    if s.len() < at {
        return None;
    }
    if s.len() - at < 2 {
        return None;
    }
    let n = num::get2(s, at);
    if 256 < n {
        return None;
    }
    skip_entries_n(s, at + 2, n as usize)
}

// n lists of at most 8 nodes.
pub fn skip_lists_n(s: &[u8], at: usize, n: usize) -> Option<usize>
    ensures { result ≡ skip_n (many 1 0 8 u64) s.now n at }
{
    let mut p = at;
    for i in 0..n {
        let q = skip_run(s, p, 0, 8, 8)?;
        p = q;
    }
    Some(p)
}

// A placement: a count byte, at most 16, and that many lists.
pub fn skip_lists(s: &[u8], at: usize) -> Option<usize>
    ensures { result ≡ skip placement_f s.now at }
{
    if s.len() <= at {
        return None;
    }
    let n = s[at];
    if 16 < n {
        return None;
    }
    skip_lists_n(s, at + 1, n as usize)
}

// The operands of 10.
pub fn skip_create(s: &[u8], at: usize) -> Option<usize>
    ensures { result ≡ skip create_f s.now at }
{
    let p = skip_text(s, at, 32, 4)?;
    let q = skip_below(s, p, 2)?;
    let t = skip_word(s, q, 8)?;
    skip_lists(s, t)
}

// The operands of 12.
pub fn skip_register(s: &[u8], at: usize) -> Option<usize>
    ensures { result ≡ skip register_f s.now at }
{
    let p = skip_word(s, at, 8)?;
    skip_text(s, p, 64, 8)
}

// A command with its code, 10 to 19.
pub fn skip_command(s: &[u8], at: usize) -> Option<usize>
    ensures { result ≡ skip command_f s.now at }
{
    if s.len() <= at {
        return None;
    }
    let p = at + 1;
    let t = s[at];
    match t {
        0x10 => skip_create(s, p),
        0x11 => skip_text(s, p, 32, 0),
        0x12 => skip_register(s, p),
        0x13 => skip_word(s, p, 16),
        0x14 => skip_text(s, p, 32, 28),
        0x15 => skip_text(s, p, 32, 20),
        0x16 => skip_text(s, p, 32, 20),
        0x17 => skip_text(s, p, 32, 20),
        0x18 => skip_text(s, p, 32, 20),
        0x19 => skip_long_run(s, p, 1024, 1),
        _ => None,
    }
}

// Numbers in bytes, least significant first (paper 01, 'Bytes on the wire'), and the source's `wrapping_mul`.
// Reading is the library's flat sum of products and writing one store a byte: the compiler makes a single load or store of
// either. Internal: a caller shows that the bytes are there.
#![tactic(auto)]

ghost use Rattle.std.specs.Prelude.{◌≡◌, ◌+◌, ◌*◌, ◌%◌, ◌^◌, ◌<◌, ◌≤◌, length};
ghost use Rattle.std.proofs.lemmas.List.Edits.{sets};
ghost use Rattle.spec.specs.Layout.Format.{number_at, bytes_of};

// The number of 8 bytes at a position.
// Stays three functions: each width has a type of its own, whose function of the library reads it.
pub fn get8(s: &[u8], at: usize) -> u64
    requires { at + 8 ≤ length s.now }
    ensures { result ≡ number_at 8 s.now at }
{
    u64::from_le_bytes([
        s[at],
        s[at + 1],
        s[at + 2],
        s[at + 3],
        s[at + 4],
        s[at + 5],
        s[at + 6],
        s[at + 7],
    ])
}

// The number of 4 bytes at a position.
pub fn get4(s: &[u8], at: usize) -> u32
    requires { at + 4 ≤ length s.now }
    ensures { result ≡ number_at 4 s.now at }
{
    u32::from_le_bytes([s[at], s[at + 1], s[at + 2], s[at + 3]])
}

// The number of 2 bytes at a position.
pub fn get2(s: &[u8], at: usize) -> u16
    requires { at + 2 ≤ length s.now }
    ensures { result ≡ number_at 2 s.now at }
{
    u16::from_le_bytes([s[at], s[at + 1]])
}

// The 8 bytes of a number, stored from a position on.
// Stays three functions: each width has a type of its own.
pub fn put8(out: &mut [u8], at: usize, v: u64)
    requires { at + 8 ≤ length out.old }
    ensures { out.new ≡ sets out.old at (bytes_of 8 v) }
{
    out[at] = (v % 256) as u8;
    out[at + 1] = (v / 256 % 256) as u8;
    out[at + 2] = (v / 256 / 256 % 256) as u8;
    out[at + 3] = (v / 256 / 256 / 256 % 256) as u8;
    out[at + 4] = (v / 256 / 256 / 256 / 256 % 256) as u8;
    out[at + 5] = (v / 256 / 256 / 256 / 256 / 256 % 256) as u8;
    out[at + 6] = (v / 256 / 256 / 256 / 256 / 256 / 256 % 256) as u8;
    out[at + 7] = (v / 256 / 256 / 256 / 256 / 256 / 256 / 256 % 256) as u8;
}

// The 4 bytes of a number, stored from a position on.
pub fn put4(out: &mut [u8], at: usize, v: u32)
    requires { at + 4 ≤ length out.old }
    ensures { out.new ≡ sets out.old at (bytes_of 4 v) }
{
    out[at] = (v % 256) as u8;
    out[at + 1] = (v / 256 % 256) as u8;
    out[at + 2] = (v / 256 / 256 % 256) as u8;
    out[at + 3] = (v / 256 / 256 / 256 % 256) as u8;
}

// The 2 bytes of a number, stored from a position on.
pub fn put2(out: &mut [u8], at: usize, v: u16)
    requires { at + 2 ≤ length out.old }
    ensures { out.new ≡ sets out.old at (bytes_of 2 v) }
{
    out[at] = (v % 256) as u8;
    out[at + 1] = (v / 256 % 256) as u8;
}

// The source's `wrapping_mul` of u64: the low 64 bits of the product.
pub fn wrapping_mul(a: u64, b: u64) -> u64
    ensures { result ≡ (a * b) % 2 ^ 64 }
{
    a.wrapping_mul(b)
}

// Internal: what the rows of an image share: bytes, counts, codes.
ghost use Rattle.std.specs.Prelude.{◌≡◌, ◌+◌, ◌*◌, ◌≤◌, length};
ghost use Rattle.image_parts.specs.Shape.{value, byte, rep, u64, in_use, codes_below};

// N bytes.
pub(crate) fn bytes_at<const N: usize>(s: &[u8], at: usize) -> [u8; N]
    requires { at + N ≤ length s.now }
    ensures { result ≡ value (rep N byte) s.now at }
{
    let mut out = [0u8; N];
    out.copy_from_slice(&s[at..at + N]);
    out
}

// Internal: how many rows of an array are in use.
pub fn in_use(limit: usize, count: usize) -> usize
    ensures { (result ≡ in_use limit count) × (result ≤ limit) × (result ≤ count) }
{
    if count <= limit { count } else { limit }
}

// Internal: the count at a place of an image.
pub fn count_at(s: &[u8], at: usize, limit: usize) -> usize
    requires { at + 8 ≤ length s.now }
    ensures { (result ≡ in_use limit (value u64 s.now at)) × (result ≤ limit) }
{
    in_use(limit, num::get8(s, at) as usize)
}

// Internal: whether the codes of n rows are listed.
pub fn codes_below(s: &[u8], limit: u32, w: usize, n: usize, at: usize) -> bool
    requires { at + w * n + 4 ≤ length s.now + w }
    ensures { result ≡ codes_below limit w s.now n at }
{
    for i in 0..n {
        if limit <= num::get4(s, at + w * i) {
            return false;
        }
    }
    true
}

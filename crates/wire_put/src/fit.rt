// Internal: whether the layout can carry a text or a vector.
ghost use Rattle.std.specs.Prelude.{◌≡◌, true};
ghost use Rattle.wire_put.specs.Fields.{count_fits, op_fits, op_size, text_fits};

// A name or an address: at most c bytes, each of 20 to 7E.
pub fn text_fits(v: &[u8], c: usize) -> bool
    ensures { result ≡ text_fits c v.now }
{
    if c < v.len() {
        return false;
    }
    for x in v {
        let b = *x;
        if b < 0x20 {
            return false;
        }
        if 0x7E < b {
            return false;
        }
    }
    true
}

// An operation, by how many components it has.
pub fn op_fits(upsert: bool, n: usize) -> bool
    ensures { result ≡ op_fits upsert n }
{
    if upsert {
        return count_fits(1, 32, n);
    }
    true
}

// A count within its limits.
pub fn count_fits(lo: usize, hi: usize, n: usize) -> bool
    ensures { result ≡ count_fits lo hi n }
{
    if n < lo {
        return false;
    }
    n <= hi
}

// The bytes that an operation takes.
pub fn op_size(upsert: bool, n: usize) -> usize
    requires { op_fits upsert n ≡ true }
    ensures { result ≡ op_size upsert n }
{
    if upsert {
        return 10 + 4 * n;
    }
    9
}

// The clauses of 24 that speak of the entries: offsets 1, 2, 3 and so on, listed codes, 1 to 32 floats in the domain. Each column is tested
// in one pass without early exit, so that several places are tested at once, and so are the floats of all stretches; only if one of those,
// used or free, lies outside the domain is each Upsert's own part tested.

ghost use Rattle.std.specs.Prelude.{◌≡◌, ◌≤◌, ◌<◌, length};
ghost use Rattle.spec.specs.Lists.{every};
ghost use Rattle.spec.specs.Node.WellFormed.{component};
ghost use Rattle.log_store.specs.Store.{every_below};
ghost use Rattle.log_check.specs.Entries.{EntryFits, EntriesFit, number_fits, shape_fits, shape_at};

// Internal: whether every component lies in the domain.
pub fn all_in_domain(vector: &[f32]) -> bool
    ensures { result ≡ every component vector.now }
{
    let mut ok = true;
    for x in vector {
        if !float_distance::order::in_domain(*x) {
            ok = false;
        }
    }
    ok
}

fn wide(x: u8) -> usize
    ensures { (result ≡ x) × (result < 256) }
{
    x as usize
}

// Internal: the clauses of the entry at place i.
fn entry_fits(offsets: &[u64], codes: &[u8], lengths: &[u8], floats: &[f32], i: usize) -> bool
    requires { (i < 1024) × (length offsets.now ≡ 1024) × (length codes.now ≡ 1024) × (length lengths.now ≡ 1024) × (32768 ≤ length floats.now) }
    ensures { EntryFits offsets.now codes.now lengths.now floats.now i result }
{
    if offsets[i] != (i + 1) as u64 {
        return false;
    }
    if codes[i] == 2 {
        return true;
    }
    if codes[i] != 1 {
        return false;
    }
    let n = wide(lengths[i]);
    if n == 0 {
        return false;
    }
    if 32 < n {
        return false;
    }
    let start = i * 32;
    all_in_domain(&floats[start..start + n])
}

// Internal: the clauses of each of the first `count` entries, one by one.
fn each_fits(offsets: &[u64], codes: &[u8], lengths: &[u8], floats: &[f32], count: usize) -> bool
    requires { (count ≤ 1024) × (length offsets.now ≡ 1024) × (length codes.now ≡ 1024) × (length lengths.now ≡ 1024) × (32768 ≤ length floats.now) }
    ensures { EntriesFit offsets.now codes.now lengths.now floats.now count result }
{
    for i in 0..count {
        if !entry_fits(offsets, codes, lengths, floats, i) {
            return false;
        }
    }
    true
}

// Internal: whether the offsets of the first `count` entries are 1, 2, 3 and so on.
fn numbered(offsets: &[u64], count: usize) -> bool
    requires { count ≤ length offsets.now }
    ensures { result ≡ every_below (number_fits offsets.now) count }
{
    let mut ok = true;
    for i in 0..count {
        if offsets[i] != (i + 1) as u64 {
            ok = false;
        }
    }
    ok
}

// Internal: a Delete, or an Upsert of 1 to 32 floats.
pub fn is_listed(code: u8, len: u8) -> bool
    ensures { result ≡ shape_fits code len }
{
    if code != 1 {
        return code == 2;
    }
    if len == 0 {
        return false;
    }
    len <= 32
}

// Internal: whether each of the first `count` entries is one of these.
fn listed(codes: &[u8], lengths: &[u8], count: usize) -> bool
    requires { (count ≤ length codes.now) × (count ≤ length lengths.now) }
    ensures { result ≡ every_below (shape_at codes.now lengths.now) count }
{
    let mut ok = true;
    for i in 0..count {
        if !is_listed(codes[i], lengths[i]) {
            ok = false;
        }
    }
    ok
}

// Internal: the clauses of each of the first `count` entries.
pub fn entries_fit(
    offsets: &[u64],
    codes: &[u8],
    lengths: &[u8],
    floats: &[f32],
    count: usize,
) -> bool
    requires { (count ≤ 1024) × (length offsets.now ≡ 1024) × (length codes.now ≡ 1024) × (length lengths.now ≡ 1024) × (32768 ≤ length floats.now) }
    ensures { EntriesFit offsets.now codes.now lengths.now floats.now count result }
{
    let end = count * 32;
    if !all_in_domain(&floats[0..end]) {
        return each_fits(offsets, codes, lengths, floats, count);
    }
    if !numbered(offsets, count) {
        return false;
    }
    listed(codes, lengths, count)
}

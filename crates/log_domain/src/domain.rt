// Paper 01, 'Who is turned down', 22: a vector outside the domain, in an operation, a query or a batch. Internal: the
// message was read.
ghost use Rattle.std.specs.Prelude.{◌≡◌, ◌+◌, ◌*◌, ◌≤◌, length};
ghost use Rattle.spec.specs.Lists.{every};
ghost use Rattle.spec.specs.Node.Wire.{patterns_in_domain, op_in_domain, entry_in_domain};
ghost use Rattle.log_domain.specs.Parts.{bits_in, op_in, entries_in, OpThere, EntriesThere};

use float_distance::order::bits_in_domain;
use wire_read::parts::{component, entry_at};
use wire_read::{OpPart, Part};

// Whether every component lies in the domain: no early exit, so that several are tested at a time.
fn vector_in_domain(s: &[u8], v: Part) -> bool
    requires { v.at + v.len * 4 ≤ length s.now }
    ensures { result ≡ patterns_in_domain (bits_in s.now v) }
{
    let n = v.len;
    let mut ok = true;
    for i in 0..n {
        if !bits_in_domain(component(s, v, i)) {
            ok = false;
        }
    }
    ok
}

// Whether an operation's vector lies in the domain; a Delete has none.
pub fn op_in_domain(s: &[u8], o: OpPart) -> bool
    requires { OpThere s.now o }
    ensures { result ≡ op_in_domain (op_in s.now o) }
{
    match o {
        OpPart::Upsert { id: _, vector } => vector_in_domain(s, vector),
        OpPart::Delete { id: _ } => true,
    }
}

// Whether the vectors of all entries of a batch lie in the domain, those too that would not be stored.
pub fn entries_in_domain(s: &[u8], p: Part) -> bool
    requires { EntriesThere s.now p }
    ensures { result ≡ every entry_in_domain (entries_in s.now p) }
{
    let n = p.len;
    let mut at = p.at;
    for i in 0..n {
        let e = entry_at(s, at);
        let o = e.op;
        if !op_in_domain(s, o) {
            return false;
        }
        at = e.next;
    }
    true
}

// How far a log goes after a batch of a message, by the offsets alone (paper 01, 'Who is turned down', CopyShard). Internal: the message was
// read.
ghost use Rattle.std.specs.Prelude.{◌≡◌, cond, ◌+◌, ◌≤◌, ◌<◌, eqb};
ghost use Rattle.log_domain.specs.Parts.{entries_in, EntriesThere};
ghost use Rattle.log_domain.specs.Growth.{GrowsTo};

use spec::Offset;
use wire_read::Part;
use wire_read::parts::entry_at;

// A log of `last` entries after one of this offset; a batch adds at most 256 to 1,024.
fn after(last: usize, offset: Offset) -> usize
    requires { last < 1280 }
    ensures { result ≡ cond (eqb offset.0 (last + 1)) (last + 1) last }
{
    let next = last + 1;
    if offset.0 != next as u64 {
        return last;
    }
    next
}

// How many entries the log has after a batch, by the offsets alone: those already held and those behind a gap add nothing.
pub fn grows_to(s: &[u8], p: Part, count: usize) -> usize
    requires { (EntriesThere s.now p) × (count ≤ 1024) }
    ensures { GrowsTo (entries_in s.now p) count result }
{
    let n = p.len;
    let mut at = p.at;
    let mut last = count;
    for i in 0..n {
        let e = entry_at(s, at);
        let offset = e.offset;
        last = after(last, offset);
        at = e.next;
    }
    last
}

// One replica of one shard (paper 01, 'The log'; shard.rs): its log and the table of its vectors, over lent columns and
// lent floats.
#![tactic(auto)]

pub mod align;
mod log;
pub mod replica;
pub mod table;

ghost use Rattle.std.specs.Prelude.{◌≡◌, ◌<◌};
ghost use Rattle.log_store.specs.View.{LookedUp};

use spec::Offset;

// Internal: paper 01, 'The log': the components of the entry at `offset`, as a part of the lent floats, whatever the other
// columns hold and however long they are. Empty for a Delete, and for an offset that the log lacks. The callers have
// tested the store (24); `node_log_reads` exports the lookup by id.
pub fn components<'a>(
    codes: &[u8],
    lengths: &[u8],
    floats: &'a [f32],
    count: usize,
    offset: Offset,
) -> &'a [f32]
    ensures { LookedUp codes.now lengths.now floats.now count offset.0 result.now }
{
    let o = offset.0;
    if o == 0 {
        return &floats[0..0];
    }
    let at = (o - 1) as usize;
    if count <= at {
        return &floats[0..0];
    }
    if codes.len() <= at {
        return &floats[0..0];
    }
    if codes[at] != 1 {
        return &floats[0..0];
    }
    if lengths.len() <= at {
        return &floats[0..0];
    }
    if floats.len() / 32 < at {
        return &floats[0..0];
    }
    let start = at * 32;
    let end = start + wide(lengths[at]);
    if floats.len() < end {
        return &floats[start..];
    }
    &floats[start..end]
}

fn wide(x: u8) -> usize
    ensures { (result ≡ x) × (result < 256) }
{
    x as usize
}

// The vectors that a replica holds (paper 01, 'The log'; shard.rs, vector, len, is_empty).
ghost use Rattle.std.specs.Prelude.{◌≡◌};
ghost use Rattle.log_store.specs.View.{columns};
ghost use Rattle.log_store.specs.Store.{lent};
ghost use Rattle.node_log_reads.specs.Vectors.{Stands, vector_lent, len_lent, empty_lent};

use crate::Refusal;
use log_calls::fits::lent_fits;
use log_store::table::{is_at, place};
use spec::Offset;

// The offset of the entry that set the vector which an id has now, None where it has none: `log_store::components` lends its floats. 24.
pub fn vector_at(
    epochs: &[u64],
    offsets: &[u64],
    ids: &[u64],
    codes: &[u8],
    lengths: &[u8],
    floats: &[f32],
    keys: &[u64],
    places: &[u64],
    count: usize,
    stored: usize,
    id: u64,
) -> Result<Option<Offset>, Refusal>
    ensures { Stands (lent (columns epochs.now offsets.now ids.now codes.now lengths.now floats.now)
        keys.now places.now count stored) id result }
{
    if !lent_fits(
        epochs, offsets, ids, codes, lengths, floats, keys, places, count, stored,
    ) {
        return Err(Refusal::Malformed);
    }
    let at = place(keys, stored, id);
    if is_at(keys, stored, at, id) {
        return Ok(Some(Offset(places[at])));
    }
    Ok(None)
}

// The components of the vector that an id has now, as a part of the lent floats, no copy. The part is empty where the id has none and where
// the store is malformed (`vector_at` says which of them): a vector has at least one component.
pub fn vector<'a>(
    epochs: &[u64],
    offsets: &[u64],
    ids: &[u64],
    codes: &[u8],
    lengths: &[u8],
    floats: &'a [f32],
    keys: &[u64],
    places: &[u64],
    count: usize,
    stored: usize,
    id: u64,
) -> &'a [f32]
    ensures { result.now ≡ vector_lent (lent (columns epochs.now offsets.now ids.now codes.now lengths.now floats.now)
        keys.now places.now count stored) id }
{
    let standing = vector_at(
        epochs, offsets, ids, codes, lengths, floats, keys, places, count, stored, id,
    );
    let Ok(found) = standing else {
        return &floats[0..0];
    };
    let Some(offset) = found else {
        return &floats[0..0];
    };
    log_store::components(codes, lengths, floats, count, offset)
}

// How many vectors the replica holds. 24.
pub fn len(
    epochs: &[u64],
    offsets: &[u64],
    ids: &[u64],
    codes: &[u8],
    lengths: &[u8],
    floats: &[f32],
    keys: &[u64],
    places: &[u64],
    count: usize,
    stored: usize,
) -> Result<usize, Refusal>
    ensures { result ≡ len_lent (lent (columns epochs.now offsets.now ids.now codes.now lengths.now floats.now)
        keys.now places.now count stored) }
{
    if !lent_fits(
        epochs, offsets, ids, codes, lengths, floats, keys, places, count, stored,
    ) {
        return Err(Refusal::Malformed);
    }
    Ok(stored)
}

// Whether it holds none. 24.
pub fn is_empty(
    epochs: &[u64],
    offsets: &[u64],
    ids: &[u64],
    codes: &[u8],
    lengths: &[u8],
    floats: &[f32],
    keys: &[u64],
    places: &[u64],
    count: usize,
    stored: usize,
) -> Result<bool, Refusal>
    ensures { result ≡ empty_lent (lent (columns epochs.now offsets.now ids.now codes.now lengths.now floats.now)
        keys.now places.now count stored) }
{
    if !lent_fits(
        epochs, offsets, ids, codes, lengths, floats, keys, places, count, stored,
    ) {
        return Err(Refusal::Malformed);
    }
    Ok(stored == 0)
}

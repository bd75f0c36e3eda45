// What a replica is asked (paper 01, 'The log'; shard.rs, ids, promote).

ghost use Rattle.std.specs.Prelude.{◌≡◌, max};
ghost use Rattle.log_store.specs.View.{columns};
ghost use Rattle.log_store.specs.Store.{lent};
ghost use Rattle.log_calls.specs.Fits.{ids_lent};

use spec::Epoch;

// The ids that have a vector, rising: a part of the lent keys, no copy. The part is empty where none has one, and where the store is malformed
// (`lent_fits` says which of them).
pub fn ids<'a>(
    epochs: &[u64],
    offsets: &[u64],
    ids: &[u64],
    codes: &[u8],
    lengths: &[u8],
    floats: &[f32],
    keys: &'a [u64],
    places: &[u64],
    count: usize,
    stored: usize,
) -> &'a [u64]
    ensures { result.now ≡ ids_lent (lent (columns epochs.now offsets.now ids.now codes.now lengths.now floats.now)
        keys.now places.now count stored) }
{
    if !super::fits::lent_fits(
        epochs, offsets, ids, codes, lengths, floats, keys, places, count, stored,
    ) {
        return &keys[0..0];
    }
    &keys[..stored]
}

// The replica's epoch after a promotion: the larger of the two, as the whole log stays.
pub fn promote(own: Epoch, epoch: Epoch) -> Epoch
    ensures { result.0 ≡ max own.0 epoch.0 }
{
    if own.0 < epoch.0 {
        return epoch;
    }
    own
}

// Internal: how much of the key beside an outcome is among its operands (specs/Canon.antt). The rest of the key is written as zeros.
ghost use Rattle.std.specs.Prelude.{◌≡◌};
ghost use Rattle.spec.specs.Keys as keys;
ghost use Rattle.map_tables.specs.Names.{view_key};
ghost use Rattle.map_tables.specs.View.{rejection_of, outcome_of};
ghost use Rattle.image_parts.specs.Canon.{image_key};
ghost use Rattle.image_map_form.specs.Canon.{rejection_key, outcome_key};
ghost use Rattle.image_map_form.specs.Beside.{part_of};
ghost use Rattle.image_map_form.specs.declared.beside.Beside.TheVariants.{Collection};

use image_parts::keys::no_key;
use image_parts::tidy::{tidy_key, tidy_name};
use map_tables::{Outcome, Rejection, ShardKey};

// Nothing of the key, its collection, or all of it.
#[derive(Drop)]
pub enum Beside {
    Nothing,
    Collection,
    Whole,
}

fn beside_rejection(r: Rejection) -> Beside
    ensures { (k : keys.Key) → rejection_key (rejection_of r k) ≡ part_of result k }
{
    match r {
        Rejection::Older => Beside::Nothing,
        Rejection::Exists => Beside::Collection,
        Rejection::ZeroSpec => Beside::Nothing,
        Rejection::PlacementMismatch => Beside::Nothing,
        Rejection::NotAlive(_) => Beside::Nothing,
        Rejection::NoCollection => Beside::Collection,
        Rejection::KnownIncarnation(_, _) => Beside::Nothing,
        Rejection::NotAtIncarnation(_, _) => Beside::Nothing,
        Rejection::NoShard => Beside::Whole,
        Rejection::OtherEpoch(_, _) => Beside::Whole,
        Rejection::AlreadyHeld(_) => Beside::Nothing,
        Rejection::RemovesPrimary => Beside::Nothing,
        Rejection::NotHeld(_) => Beside::Nothing,
        Rejection::NotInSync(_) => Beside::Nothing,
        Rejection::ShrinksPrimary => Beside::Nothing,
        Rejection::AlreadyInSync(_) => Beside::Nothing,
    }
}

pub fn beside_outcome(o: Outcome) -> Beside
    ensures { (k : keys.Key) → outcome_key (outcome_of o k) ≡ part_of result k }
{
    match o {
        Outcome::Applied => Beside::Nothing,
        Outcome::Rejected(r) => beside_rejection(r),
    }
}

fn collection_of(key: ShardKey) -> ShardKey
    ensures { result ≡ image_key (part_of Collection (view_key key)) }
{
    let name = tidy_name(key.collection);
    ShardKey {
        collection: name,
        shard: 0,
    }
}

// The key with zeros for what is not among the operands.
pub fn part_of(b: Beside, key: ShardKey) -> ShardKey
    ensures { result ≡ image_key (part_of b (view_key key)) }
{
    match b {
        Beside::Nothing => no_key(),
        Beside::Collection => collection_of(key),
        Beside::Whole => tidy_key(key),
    }
}

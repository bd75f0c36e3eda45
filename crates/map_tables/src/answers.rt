// Internal: answers and the keys beside them.
ghost use Rattle.std.specs.Prelude.{◌≡◌};
ghost use Rattle.spec.specs.Map.Tables as tables;
ghost use Rattle.spec.specs.Map.Change.{accepts, rejects};
ghost use Rattle.map_tables.specs.Names.{view_key};
ghost use Rattle.map_tables.specs.View.{answer_of, rejection_of, refusal_of};

use crate::{Name, Outcome, Refusal, Rejection, ShardKey, Verdict};

// Internal: the key beside an answer that has none.
pub fn no_key() -> ShardKey {
    let name = Name {
        bytes: [0u8; 32],
        len: 0,
    };
    ShardKey {
        collection: name,
        shard: 0,
    }
}

// Internal: 0.
pub fn applied() -> Verdict
    ensures { answer_of result ≡ accepts }
{
    let key = no_key();
    Verdict {
        answer: Ok(Outcome::Applied),
        key: key,
    }
}

// Internal: 1 to 16, with the key among the operands.
pub fn rejected(r: Rejection, key: ShardKey) -> Verdict
    ensures { answer_of result ≡ rejects (rejection_of r (view_key key)) }
{
    Verdict {
        answer: Ok(Outcome::Rejected(r)),
        key: key,
    }
}

// Internal: 21 to 25, the number alone.
pub fn refused(r: Refusal) -> Verdict
    ensures { answer_of result ≡ tables.refused (refusal_of r) }
{
    let key = no_key();
    Verdict {
        answer: Err(r),
        key: key,
    }
}

// Internal: a change of one shard, over its row (the source's with_shard).
ghost use Rattle.std.specs.Prelude.{◌≡◌};
ghost use Rattle.spec.specs.Map.Change.{decide_change, changed};
ghost use Rattle.map_shard.specs.Taken.{Takes};
ghost use Rattle.map_tables.specs.Counted.{Sized};
ghost use Rattle.map_tables.specs.View.{view_shard, answer_of, change_of};

use crate::row_change::{
    add_answer, expand_answer, promote_answer, remove_answer, shrink_answer, with_holder,
    with_primary, with_synced, without_holder, without_synced,
};
use map_tables::{Change, ShardRow, Verdict};

// Internal: whether the shard takes the change.
pub fn decide_change(s: ShardRow, c: Change) -> Verdict
    requires { Sized s }
    ensures { answer_of result ≡ decide_change (view_shard s) (change_of c) }
{
    match c {
        Change::Add(node, incarnation) => add_answer(s, node, incarnation),
        Change::Remove(node) => remove_answer(s, node),
        Change::Promote(node) => promote_answer(s, node),
        Change::Shrink(node) => shrink_answer(s, node),
        Change::Expand(node) => expand_answer(s, node),
    }
}

// Internal: the shard after a change that it takes.
pub fn changed_row(s: ShardRow, c: Change) -> ShardRow
    requires { Takes s c }
    ensures { (view_shard result ≡ changed (view_shard s) (change_of c)) × (Sized result) }
{
    match c {
        Change::Add(node, incarnation) => with_holder(s, node, incarnation),
        Change::Remove(node) => without_holder(s, node),
        Change::Promote(node) => with_primary(s, node),
        Change::Shrink(node) => without_synced(s, node),
        Change::Expand(node) => with_synced(s, node),
    }
}

// Internal: the commands with a shard. Whether a change is taken, and what it makes of the shard's row, each change by itself.
ghost use Rattle.std.specs.Prelude.{◌≡◌, cond, ◌≤◌, ◌<◌, length};
ghost use Rattle.spec.specs.Lists.{put};
ghost use Rattle.spec.specs.Map.Change as change;
ghost use Rattle.map_tables.specs.View.{view_shard, view_primary, view_in_sync, answer_of, rejection_of};
ghost use Rattle.map_tables.specs.Names.{view_key};
ghost use Rattle.map_tables.specs.Counted.{Sized};

use map_tables::answers::{applied, no_key, refused, rejected};
use map_tables::holders_of::{
    has_holder, has_synced, holder_added, holder_removed, synced_added, synced_removed,
};
use map_tables::{InSync, Refusal, Rejection, ShardKey, ShardRow, Verdict};
use spec::{DataNodeId, Epoch, Replica};

// Internal: whether the node is the primary.
pub fn is_primary(p: Option<DataNodeId>, node: DataNodeId) -> bool
    ensures { result ≡ change.is_primary node.0 (view_primary p) }
{
    match p {
        None => false,
        Some(n) => {
            if n.0 == node.0 {
                return true;
            }
            false
        }
    }
}

// Internal: Add's answer: 11, 23.
pub fn add_answer(s: ShardRow, node: DataNodeId, incarnation: u64) -> Verdict
    requires { Sized s }
    ensures { answer_of result ≡ change.decide_change (view_shard s) (change.add node.0 incarnation) }
{
    if has_holder(s.replicas, node) {
        return rejected(Rejection::AlreadyHeld(node), no_key());
    }
    let count = s.replicas.count;
    if 8 <= count {
        return refused(Refusal::NoRoom);
    }
    applied()
}

// What Remove and Shrink share: the primary stays, and who is to leave must be there.
fn leave_answer(
    primary: bool,
    there: bool,
    stays: Rejection,
    absent: Rejection,
    key: ShardKey,
) -> Verdict
    ensures { answer_of result ≡ cond primary (change.rejects (rejection_of stays (view_key key))) (cond there change.accepts (change.rejects (rejection_of absent (view_key key)))) }
{
    if primary {
        return rejected(stays, key);
    }
    if there {
        return applied();
    }
    rejected(absent, key)
}

// Internal: Remove's answer: 12, 13.
pub fn remove_answer(s: ShardRow, node: DataNodeId) -> Verdict
    requires { Sized s }
    ensures { answer_of result ≡ change.decide_change (view_shard s) (change.remove node.0) }
{
    let p = s.primary;
    let primary = is_primary(p, node);
    let there = has_holder(s.replicas, node);
    leave_answer(
        primary,
        there,
        Rejection::RemovesPrimary,
        Rejection::NotHeld(node),
        no_key(),
    )
}

// Internal: Promote's answer: 14, 25.
pub fn promote_answer(s: ShardRow, node: DataNodeId) -> Verdict
    requires { Sized s }
    ensures { answer_of result ≡ change.decide_change (view_shard s) (change.promote node.0) }
{
    if has_synced(s.insync, node) {
        let epoch = s.epoch.0;
        if epoch == 18446744073709551615 {
            return refused(Refusal::LastEpoch);
        }
        return applied();
    }
    rejected(Rejection::NotInSync(node), no_key())
}

// Internal: Shrink's answer: 15, 14.
pub fn shrink_answer(s: ShardRow, node: DataNodeId) -> Verdict
    requires { Sized s }
    ensures { answer_of result ≡ change.decide_change (view_shard s) (change.shrink node.0) }
{
    let p = s.primary;
    let primary = is_primary(p, node);
    let there = has_synced(s.insync, node);
    leave_answer(
        primary,
        there,
        Rejection::ShrinksPrimary,
        Rejection::NotInSync(node),
        no_key(),
    )
}

// Internal: Expand's answer: 13, 16.
pub fn expand_answer(s: ShardRow, node: DataNodeId) -> Verdict
    requires { Sized s }
    ensures { answer_of result ≡ change.decide_change (view_shard s) (change.expand node.0) }
{
    if has_holder(s.replicas, node) {
        if has_synced(s.insync, node) {
            return rejected(Rejection::AlreadyInSync(node), no_key());
        }
        return applied();
    }
    rejected(Rejection::NotHeld(node), no_key())
}

// Internal: Add.
pub fn with_holder(s: ShardRow, node: DataNodeId, incarnation: u64) -> ShardRow
    requires { s.replicas.count < 8 }
    ensures { (view_shard result ≡ change.changed (view_shard s) (change.add node.0 incarnation)) × (Sized s → Sized result) }
{
    let grown = holder_added(
        s.replicas,
        Replica {
            node: node,
            incarnation: incarnation,
        },
    );
    let mut out = s;
    out.replicas = grown;
    out
}

// Internal: 'Near misses': what is removed leaves the in-sync set as well.
pub fn without_holder(s: ShardRow, node: DataNodeId) -> ShardRow
    requires { Sized s }
    ensures { (view_shard result ≡ change.changed (view_shard s) (change.remove node.0)) × (Sized result) }
{
    let kept = holder_removed(s.replicas, node);
    let left = synced_removed(s.insync, node);
    let mut out = s;
    out.replicas = kept;
    out.insync = left;
    out
}

// Internal: another node that was primary leaves the in-sync set.
fn deposed(p: Option<DataNodeId>, s: InSync, node: DataNodeId) -> InSync
    requires { s.count ≤ 8 }
    ensures { (view_in_sync result ≡ change.deposed node.0 (view_primary p) (view_in_sync s)) × (result.count ≤ 8) }
{
    match p {
        None => s,
        Some(old) => {
            if old.0 == node.0 {
                return s;
            }
            synced_removed(s, old)
        }
    }
}

// Internal: Promote: one epoch on.
pub fn with_primary(s: ShardRow, node: DataNodeId) -> ShardRow
    requires { (Sized s) × (s.epoch.0 ≡ 18446744073709551615 → ⊥) }
    ensures { (view_shard result ≡ change.changed (view_shard s) (change.promote node.0)) × (Sized result) }
{
    let p = s.primary;
    let synced = deposed(p, s.insync, node);
    let key = s.key;
    let replicas = s.replicas;
    let epoch = s.epoch.0;
    ShardRow {
        key: key,
        replicas: replicas,
        primary: Some(node),
        insync: synced,
        epoch: Epoch(epoch + 1),
    }
}

// Internal: Shrink.
pub fn without_synced(s: ShardRow, node: DataNodeId) -> ShardRow
    requires { Sized s }
    ensures { (view_shard result ≡ change.changed (view_shard s) (change.shrink node.0)) × (Sized result) }
{
    let synced = synced_removed(s.insync, node);
    let mut out = s;
    out.insync = synced;
    out
}

// Internal: Expand.
pub fn with_synced(s: ShardRow, node: DataNodeId) -> ShardRow
    requires { (Sized s) × (length (put change.id_below node (view_in_sync s.insync)) ≤ 8) }
    ensures { (view_shard result ≡ change.changed (view_shard s) (change.expand node.0)) × (Sized result) }
{
    let synced = synced_added(s.insync, node);
    let mut out = s;
    out.insync = synced;
    out
}

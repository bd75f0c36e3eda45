// The text of each rejection, written from a buffer's start on; the place behind it is its length. Internal.
ghost use Rattle.std.specs.Prelude.{◌+◌, ◌≤◌, ◌++◌, length};
ghost use Rattle.spec.specs.Refusals.{exists, no_collection, no_shard, other_epoch};
ghost use Rattle.spec_words.specs.Decimal.{decimal};
ghost use Rattle.spec_words.specs.Texts.{says_epoch, says_shard};
ghost use Rattle.spec_words.specs.Words.{key_words, of_node, words};
ghost use Rattle.map_tables.specs.Names.{view_name, view_key};
ghost use Rattle.map_tables.specs.View.{rejection_of};
ghost use Rattle.map_words.specs.Written.{Puts};

use crate::parts::{put_key, put_name, put_number, put_words};
use map_tables::{Name, Rejection, ShardKey};
use spec::{DataNodeId, Epoch};

// What is said of a node.
fn put_node(out: &mut [u8], node: DataNodeId, tail: &[u8]) -> usize
    requires { 25 + length tail.now ≤ length out.old }
    ensures { Puts out.old out.new 0 (of_node node.0 tail.now) result }
{
    let number = put_words(out, 0, b"node ");
    let rest = put_number(out, number, node.0);
    put_words(out, rest, tail)
}

// And of its incarnation.
fn put_node_at(out: &mut [u8], node: DataNodeId, tail: &[u8], incarnation: u64) -> usize
    requires { 45 + length tail.now ≤ length out.old }
    ensures { Puts out.old out.new 0 (of_node node.0 (tail.now ++ decimal incarnation)) result }
{
    let number = put_node(out, node, tail);
    put_number(out, number, incarnation)
}

fn put_exists(out: &mut [u8], name: Name) -> usize
    requires { 108 ≤ length out.old }
    ensures { Puts out.old out.new 0 (words (exists (view_name name))) result }
{
    let at = put_words(out, 0, b"collection ");
    let rest = put_name(out, at, name);
    put_words(out, rest, b" exists")
}

fn put_no_collection(out: &mut [u8], name: Name) -> usize
    requires { 108 ≤ length out.old }
    ensures { Puts out.old out.new 0 (words (no_collection (view_name name))) result }
{
    let at = put_words(out, 0, b"no collection ");
    put_name(out, at, name)
}

fn put_no_shard(out: &mut [u8], key: ShardKey) -> usize
    requires { 108 ≤ length out.old }
    ensures { Puts out.old out.new 0 (words (no_shard (view_key key))) result }
{
    let at = put_words(out, 0, b"no shard ");
    put_key(out, at, key)
}

// The shard and its own epoch.
fn put_own_epoch(out: &mut [u8], key: ShardKey, own: Epoch) -> usize
    requires { 108 ≤ length out.old }
    ensures { (Puts out.old out.new 0 (says_shard ++ (key_words (view_key key) ++ (says_epoch ++ decimal own.0))) result) × (result ≤ 82) }
{
    let at = put_words(out, 0, b"shard ");
    let behind = put_key(out, at, key);
    let number = put_words(out, behind, b" is at epoch ");
    put_number(out, number, own.0)
}

fn put_epochs(out: &mut [u8], key: ShardKey, own: Epoch, given: Epoch) -> usize
    requires { 108 ≤ length out.old }
    ensures { Puts out.old out.new 0 (words (other_epoch (view_key key) own.0 given.0)) result }
{
    let rest = put_own_epoch(out, key, own);
    let number = put_words(out, rest, b", not ");
    put_number(out, number, given.0)
}

// 1 to 16.
pub fn put_rejection(out: &mut [u8], r: Rejection, key: ShardKey) -> usize
    requires { 108 ≤ length out.old }
    ensures { Puts out.old out.new 0 (words (rejection_of r (view_key key))) result }
{
    let name = key.collection;
    match r {
        Rejection::Older => put_words(out, 0, b"an older command from this client"),
        Rejection::Exists => put_exists(out, name),
        Rejection::ZeroSpec => {
            put_words(
                out,
                0,
                b"shards, replication, and dimension must be positive",
            )
        }
        Rejection::PlacementMismatch => {
            put_words(out, 0, b"the placement does not match the collection")
        }
        Rejection::NotAlive(node) => put_node(out, node, b" is not alive"),
        Rejection::NoCollection => put_no_collection(out, name),
        Rejection::KnownIncarnation(node, known) => {
            put_node_at(out, node, b" is already at incarnation ", known)
        }
        Rejection::NotAtIncarnation(node, given) => {
            put_node_at(out, node, b" is not at incarnation ", given)
        }
        Rejection::NoShard => put_no_shard(out, key),
        Rejection::OtherEpoch(own, given) => put_epochs(out, key, own, given),
        Rejection::AlreadyHeld(node) => put_node(out, node, b" already holds the shard"),
        Rejection::RemovesPrimary => put_words(out, 0, b"the primary cannot be removed"),
        Rejection::NotHeld(node) => put_node(out, node, b" does not hold the shard"),
        Rejection::NotInSync(node) => put_node(out, node, b" is not in sync"),
        Rejection::ShrinksPrimary => put_words(out, 0, b"the primary stays in sync"),
        Rejection::AlreadyInSync(node) => put_node(out, node, b" is already in sync"),
    }
}

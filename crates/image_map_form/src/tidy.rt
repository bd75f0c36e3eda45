// Internal: a row of the map in the form in which it is written (specs/Canon.antt): of names, addresses, replicas and ids what is in use, and
// of a session's key what its outcome has among its operands. All else of the row is zeros.
ghost use Rattle.std.specs.Prelude.{◌≡◌};
ghost use Rattle.map_tables.specs.View.{view_node, view_collection, view_holders, view_in_sync, view_shard, view_session};
ghost use Rattle.image_map_form.specs.Canon.{image_node, image_collection, image_holders, image_in_sync, image_shard, image_session};

use crate::beside::{beside_outcome, part_of};
use image_parts::bytes::in_use;
use image_parts::tidy::{tidy_address, tidy_ids, tidy_key, tidy_name, tidy_replicas};
use map_tables::{CollectionRow, Holders, InSync, NodeRow, SessionRow, ShardRow};

pub fn tidy_node(r: NodeRow) -> NodeRow
    ensures { result ≡ image_node (view_node r) }
{
    let node = r.node;
    let address = tidy_address(r.address);
    NodeRow {
        node: node,
        address: address,
        incarnation: r.incarnation,
        alive: r.alive,
    }
}

pub fn tidy_collection(c: CollectionRow) -> CollectionRow
    ensures { result ≡ image_collection (view_collection c) }
{
    let name = tidy_name(c.name);
    let spec = c.spec;
    CollectionRow {
        name: name,
        spec: spec,
    }
}

fn tidy_holders(h: Holders) -> Holders
    ensures { result ≡ image_holders (view_holders h) }
{
    let all = h.items;
    let items = tidy_replicas(all, h.count);
    let count = in_use(8, h.count);
    Holders {
        items: items,
        count: count,
    }
}

fn tidy_in_sync(s: InSync) -> InSync
    ensures { result ≡ image_in_sync (view_in_sync s) }
{
    let all = s.items;
    let items = tidy_ids(all, s.count);
    let count = in_use(8, s.count);
    InSync {
        items: items,
        count: count,
    }
}

pub fn tidy_shard(r: ShardRow) -> ShardRow
    ensures { result ≡ image_shard (view_shard r) }
{
    let key = tidy_key(r.key);
    let replicas = tidy_holders(r.replicas);
    let primary = r.primary;
    let insync = tidy_in_sync(r.insync);
    let epoch = r.epoch;
    ShardRow {
        key: key,
        replicas: replicas,
        primary: primary,
        insync: insync,
        epoch: epoch,
    }
}

pub fn tidy_session(r: SessionRow) -> SessionRow
    ensures { result ≡ image_session (view_session r) }
{
    let outcome = r.outcome;
    let beside = beside_outcome(outcome);
    let key = part_of(beside, r.key);
    SessionRow {
        client: r.client,
        seq: r.seq,
        outcome: outcome,
        key: key,
    }
}

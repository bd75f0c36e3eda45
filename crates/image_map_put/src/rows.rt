// One row in the one form: read, tidied, put where it stood. Internal.
ghost use Rattle.std.specs.Prelude.{◌≡◌, ◌+◌, ◌≤◌, length};
ghost use Rattle.map_tables.specs.View.{view_node, view_collection, view_shard, view_session};
ghost use Rattle.image_parts.specs.Shape.{Stored};
ghost use Rattle.image_map_row.specs.Rows.{node_at, node_bytes, collection_at, collection_bytes, shard_at, shard_bytes, session_at, session_bytes};
ghost use Rattle.image_map_form.specs.Canon.{image_node, image_collection, image_shard, image_session};

use image_map_form::tidy::{tidy_collection, tidy_node, tidy_session, tidy_shard};
use image_map_row::collections::{collection_at, put_collection};
use image_map_row::nodes::{node_at, put_node};
use image_map_row::sessions::{put_session, session_at};
use image_map_row::shards::{put_shard, shard_at};

pub fn node_tidied(out: &mut [u8], at: usize)
    requires { at + 96 ≤ length out.old }
    ensures { Stored out.old out.new at (node_bytes (image_node (view_node (node_at out.old at)))) 96 }
{
    let read = node_at(out, at);
    let row = tidy_node(read);
    put_node(out, at, row);
}

pub fn collection_tidied(out: &mut [u8], at: usize)
    requires { at + 56 ≤ length out.old }
    ensures { Stored out.old out.new at (collection_bytes (image_collection (view_collection (collection_at out.old at)))) 56 }
{
    let read = collection_at(out, at);
    let row = tidy_collection(read);
    put_collection(out, at, row);
}

pub fn shard_tidied(out: &mut [u8], at: usize)
    requires { at + 272 ≤ length out.old }
    ensures { Stored out.old out.new at (shard_bytes (image_shard (view_shard (shard_at out.old at)))) 272 }
{
    let read = shard_at(out, at);
    let row = tidy_shard(read);
    put_shard(out, at, row);
}

pub fn session_tidied(out: &mut [u8], at: usize)
    requires { at + 80 ≤ length out.old }
    ensures { Stored out.old out.new at (session_bytes (image_session (view_session (session_at out.old at)))) 80 }
{
    let read = session_at(out, at);
    let row = tidy_session(read);
    put_session(out, at, row);
}

// Internal: the row of a held shard as a row of the map leaves it, by what the map says of this node.
ghost use Rattle.std.specs.Prelude.{◌+◌};
ghost use Rattle.calls_show_row.specs.Row.{Ready};
ghost use Rattle.calls_show_row.specs.Peers.{AtMost32};
ghost use Rattle.calls_show_row.specs.Leave.{Rises, Stays, Leaves};

use crate::peers::{grow, retain};
use crate::set::{set_count, set_holders, set_record};
use image_header_row::held::role_at;
use image_header_set::set::step_down;
use image_layout::header::{COUNT, EPOCH, ROLE};
use map_tables::ShardRow;
use node_shard::rows::in_nodes;
use node_show_row::rows::leader_of;
use node_show_shard::{is_leader, rising_to};
use spec::Role;

// A new record: none of the peers was known. None where they do not fit.
fn rise(out: &mut [u8], at: usize, me: u64, row: ShardRow) -> Option<usize>
    requires { Ready out.old at row }
    ensures { AtMost32 result (Rises out.old out.new at me row) }
{
    let list = row.replicas;
    let copies = list.items;
    let sync = row.insync;
    let ids = sync.items;
    let n = grow(out, at, 0, me, copies, list.count, ids, sync.count)?;
    let to = row.epoch;
    set_count(out, at, n);
    set_record(out, at, to, in_nodes(ids, sync.count, me));
    Some(0)
}

// A record that stays: the number of peers that were known, or none where they do not fit.
fn stay(out: &mut [u8], at: usize, me: u64, row: ShardRow) -> Option<usize>
    requires { Ready out.old at row }
    ensures { AtMost32 result (Stays out.old out.new at me row) }
{
    let list = row.replicas;
    let copies = list.items;
    let sync = row.insync;
    let ids = sync.items;
    let was = num::get8(out, at + COUNT) as usize;
    retain(out, at, was, copies, list.count);
    let n = grow(out, at, was, me, copies, list.count, ids, 0)?;
    set_count(out, at, n);
    Some(was)
}

// How many of the peers that were known still are: a worker starts for each other one that there is then. None where they do not fit: the
// row is of no use then.
pub fn leave(out: &mut [u8], at: usize, me: u64, row: ShardRow) -> Option<usize>
    requires { Ready out.old at row }
    ensures { AtMost32 result (Leaves out.old out.new at me row) }
{
    let list = row.replicas;
    set_holders(out, at, list);
    let primary = row.primary;
    let leader = leader_of(primary);
    if !is_leader(leader, me) {
        step_down(out, at);
        return Some(0);
    }
    let to = row.epoch;
    let role = role_at(out, at + ROLE);
    if rising_to(role, num::get8(out, at + EPOCH), to.0) {
        return rise(out, at, me, row);
    }
    match role {
        Role::Backup => Some(num::get8(out, at + COUNT) as usize),
        Role::Primary { epoch: _, end: _ } => stay(out, at, me, row),
    }
}

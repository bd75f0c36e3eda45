// Internal: the operands of the commands 10 to 19, at a place where they stand, and the command with its code.
ghost use Rattle.std.specs.Prelude.{◌≡◌, true};
ghost use Rattle.spec.specs.Layout.Format.{fits, value, ◌▸◌};
ghost use Rattle.spec.specs.Layout.Parts.{u64};
ghost use Rattle.spec.specs.Layout.Request.{add_f, command_f, command_of, create_f, ownership_f, register_f};
ghost use Rattle.wire_read.specs.Shown.{add_of, change_of, command_shown, create_part_of, dead_of, register_of};

use crate::parts::{key_at, metric_at, text_at};
use crate::{AddPart, ChangePart, CommandPart, CreatePart, DeadPart, Part, RegisterPart};
use spec::{DataNodeId, Epoch};

// 10: name; dimension, metric, shards, replication; placement.
fn create_at(s: &[u8], at: usize) -> CreatePart
    requires { fits create_f s.now at ≡ true }
    ensures { result ≡ create_part_of at (value create_f s.now at) }
{
    let name = text_at(s, at);
    let p = at + 1 + 32;
    let dimension = num::get4(s, p);
    let metric = metric_at(s, p + 4);
    let shards = num::get4(s, p + 4 + 1);
    let replication = num::get4(s, p + 4 + 1 + 4);
    let placement = text_at(s, p + 4 + 1 + 4 + 4);
    CreatePart {
        name,
        dimension,
        metric,
        shards,
        replication,
        placement,
    }
}

// 12: node address incarnation.
fn register_at(s: &[u8], at: usize) -> RegisterPart
    requires { fits register_f s.now at ≡ true }
    ensures { result ≡ register_of at (value register_f s.now at) }
{
    let node = DataNodeId(num::get8(s, at));
    let address = text_at(s, at + 8);
    let incarnation = num::get8(s, at + 8 + 1 + 64);
    RegisterPart {
        node,
        address,
        incarnation,
    }
}

// 13: node incarnation.
fn dead_at(s: &[u8], at: usize) -> DeadPart
    requires { fits (u64 ▸ u64) s.now at ≡ true }
    ensures { result ≡ dead_of (value (u64 ▸ u64) s.now at) }
{
    let node = DataNodeId(num::get8(s, at));
    let incarnation = num::get8(s, at + 8);
    DeadPart { node, incarnation }
}

// 14: key node incarnation epoch.
fn add_at(s: &[u8], at: usize) -> AddPart
    requires { fits add_f s.now at ≡ true }
    ensures { result ≡ add_of at (value add_f s.now at) }
{
    let key = key_at(s, at);
    let p = at + 1 + 32 + 4;
    let node = DataNodeId(num::get8(s, p));
    let incarnation = num::get8(s, p + 8);
    let epoch = Epoch(num::get8(s, p + 8 + 8));
    AddPart {
        key,
        node,
        incarnation,
        epoch,
    }
}

// 15 to 18: key node epoch.
fn change_at(s: &[u8], at: usize) -> ChangePart
    requires { fits ownership_f s.now at ≡ true }
    ensures { result ≡ change_of at (value ownership_f s.now at) }
{
    let key = key_at(s, at);
    let p = at + 1 + 32 + 4;
    let node = DataNodeId(num::get8(s, p));
    let epoch = Epoch(num::get8(s, p + 8));
    ChangePart { key, node, epoch }
}

// A command, at the place of its code.
pub fn command_at(s: &[u8], at: usize) -> CommandPart
    requires { fits command_f s.now at ≡ true }
    ensures { result ≡ command_shown at (command_of (value command_f s.now at)) }
{
    let p = at + 1;
    let t = s[at];
    match t {
        0x10 => CommandPart::Create(create_at(s, p)),
        0x11 => CommandPart::Drop(text_at(s, p)),
        0x12 => CommandPart::Register(register_at(s, p)),
        0x13 => CommandPart::MarkNodeDead(dead_at(s, p)),
        0x14 => CommandPart::AddReplica(add_at(s, p)),
        0x15 => CommandPart::Remove(change_at(s, p)),
        0x16 => CommandPart::Promote(change_at(s, p)),
        0x17 => CommandPart::Shrink(change_at(s, p)),
        0x18 => CommandPart::Expand(change_at(s, p)),
        _ => {
            let n = num::get2(s, p) as usize;
            CommandPart::Bench(Part { at: p + 2, len: n })
        }
    }
}

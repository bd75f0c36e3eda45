// Internal: a command as crate `map_tables` has it, and where its operands stand in the message. Operands that a command
// does not have are empty parts.
ghost use Rattle.std.specs.Prelude.{◌≡◌};
ghost use Rattle.map_request.specs.Parts.{operands_of, created_of, registered_of, plain_of, named_of, shard_operands};

use crate::Operands;
use map_tables::{Change, Command, Spec};
use spec::Epoch;
use wire_read::{
    AddPart, ChangePart, CommandPart, CreatePart, DeadPart, KeyPart, Part, RegisterPart,
};

fn created(c: CreatePart) -> Operands
    ensures { result ≡ created_of c }
{
    let metric = c.metric;
    let name = c.name;
    let placement = c.placement;
    Operands {
        command: Command::Create(Spec {
            dimension: c.dimension,
            metric: metric,
            shards: c.shards,
            replication: c.replication,
        }),
        name: name,
        shard: 0,
        address: Part { at: 0, len: 0 },
        placement: placement,
    }
}

fn registered(c: RegisterPart) -> Operands
    ensures { result ≡ registered_of c }
{
    let node = c.node;
    let address = c.address;
    Operands {
        command: Command::Register(node, c.incarnation),
        name: Part { at: 0, len: 0 },
        shard: 0,
        address: address,
        placement: Part { at: 0, len: 0 },
    }
}

fn plain(command: Command) -> Operands
    ensures { result ≡ plain_of command }
{
    named(command, Part { at: 0, len: 0 })
}

fn named(command: Command, name: Part) -> Operands
    ensures { result ≡ named_of command name 0 }
{
    Operands {
        command: command,
        name: name,
        shard: 0,
        address: Part { at: 0, len: 0 },
        placement: Part { at: 0, len: 0 },
    }
}

fn of_shard(change: Change, epoch: Epoch, key: KeyPart) -> Operands
    ensures { result ≡ shard_operands change epoch key }
{
    let name = key.name;
    Operands {
        command: Command::OfShard(change, epoch),
        name: name,
        shard: key.shard,
        address: Part { at: 0, len: 0 },
        placement: Part { at: 0, len: 0 },
    }
}

fn dead(c: DeadPart) -> Operands
    ensures { result ≡ plain_of (Command.MarkNodeDead c.node c.incarnation) }
{
    let node = c.node;
    plain(Command::MarkNodeDead(node, c.incarnation))
}

fn added(c: AddPart) -> Operands
    ensures { result ≡ shard_operands (Change.Add c.node c.incarnation) c.epoch c.key }
{
    let node = c.node;
    let epoch = c.epoch;
    let key = c.key;
    of_shard(Change::Add(node, c.incarnation), epoch, key)
}

fn changed(change: Change, c: ChangePart) -> Operands
    ensures { result ≡ shard_operands change c.epoch c.key }
{
    let epoch = c.epoch;
    let key = c.key;
    of_shard(change, epoch, key)
}

pub fn operands_of(c: CommandPart) -> Operands
    ensures { result ≡ operands_of c }
{
    match c {
        CommandPart::Create(p) => created(p),
        CommandPart::Drop(name) => named(Command::Drop, name),
        CommandPart::Register(p) => registered(p),
        CommandPart::MarkNodeDead(p) => dead(p),
        CommandPart::AddReplica(p) => added(p),
        CommandPart::Remove(p) => {
            let node = p.node;
            changed(Change::Remove(node), p)
        }
        CommandPart::Promote(p) => {
            let node = p.node;
            changed(Change::Promote(node), p)
        }
        CommandPart::Shrink(p) => {
            let node = p.node;
            changed(Change::Shrink(node), p)
        }
        CommandPart::Expand(p) => {
            let node = p.node;
            changed(Change::Expand(node), p)
        }
        CommandPart::Bench(_) => plain(Command::Bench),
    }
}

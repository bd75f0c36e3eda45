// Internal: the struct of a request that was read, from its parts and the message.
ghost use Rattle.map_request.specs.Parts.{Held, operands_of};
ghost use Rattle.map_request.specs.Read.{LoadedAs};

use crate::command::operands_of;
use crate::lists::{load_placement, no_list};
use map_names::{load_address, load_name};
use map_tables::{Address, Command, Name, Placement, Request, ShardKey};
use wire_read::RequestPart;

pub fn load(s: &[u8], p: RequestPart) -> Request
    requires { Held s.now (operands_of p.command) }
    ensures { LoadedAs s.now p result }
{
    let c = p.command;
    let o = operands_of(c);
    let name = load_name(s, o.name);
    let address = load_address(s, o.address);
    let placement = load_placement(s, o.placement);
    let command = o.command;
    Request {
        index: p.index,
        client: p.client,
        seq: p.seq,
        command: command,
        key: ShardKey {
            collection: name,
            shard: o.shard,
        },
        address: address,
        placement: placement,
    }
}

// The request that stands where none was read.
pub fn blank() -> Request {
    Request {
        index: 0,
        client: 0,
        seq: 0,
        command: Command::Bench,
        key: ShardKey {
            collection: Name {
                bytes: [0u8; 32],
                len: 0,
            },
            shard: 0,
        },
        address: Address {
            bytes: [0u8; 64],
            len: 0,
        },
        placement: Placement {
            lists: [no_list(); 16],
            count: 0,
        },
    }
}

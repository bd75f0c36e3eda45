// Requests as the shard map takes them (paper 01, 'Bytes on the wire', 01): what crate wire_read reads, with names,
// address and placement copied out of the message into the struct of crate `map_tables`. What is read is `spec`'s
// `request_at` and `decode_request`.
#![tactic(auto)]

ghost use Rattle.map_request.specs.Read.{LoadedAt, LoadedAll};

use load::{blank, load};
use map_tables::{Command, Request};
use wire_read::{Message, Part};

mod command;
mod lists;
pub mod load;

// A request that was read, and the position after it. Where none was, the request is free.
#[derive(Clone, Copy)]
pub struct Loaded {
    pub found: bool,
    pub request: Request,
    pub next: usize,
}

// A command as crate `map_tables` has it, and where its operands stand in the message; those that it does not have are
// empty parts.
#[derive(Clone, Copy)]
pub struct Operands {
    pub command: Command,
    pub name: Part,
    pub shard: u32,
    pub address: Part,
    pub placement: Part,
}

// The request that begins at a position, taken by its own length; where none does, that position again.
pub fn request_at(s: &[u8], at: usize) -> Loaded
    ensures { LoadedAt s.now at result }
{
    let read = wire_read::request_at(s, at);
    let message = read.message;
    let Message::Request(p) = message else {
        return Loaded {
            found: false,
            request: blank(),
            next: at,
        };
    };
    let request = load(s, p);
    Loaded {
        found: true,
        request: request,
        next: read.next,
    }
}

// The request that the bytes are, all of them; the position after it is then their end, else the start.
pub fn decode(s: &[u8]) -> Loaded
    ensures { LoadedAll s.now result }
{
    let message = wire_read::decode(s);
    let Message::Request(p) = message else {
        return Loaded {
            found: false,
            request: blank(),
            next: 0,
        };
    };
    let request = load(s, p);
    Loaded {
        found: true,
        request: request,
        next: s.len(),
    }
}

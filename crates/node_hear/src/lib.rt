// What a node hears (paper 01, 'Who is turned down'): a peer's reply in bytes; and what a map shown to it promises.
#![tactic(auto)]

use node_shard::Reply;

pub mod ack;

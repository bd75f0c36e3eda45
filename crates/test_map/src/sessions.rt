// The sessions of a map, a line for each: what is remembered of a client, with the operands of a rejection.
ghost use Rattle.image_map_put.specs.Few.{Few};

use crate::words::{key, name};
use image_map_check::layout::{SESSION, SESSIONS, SESSIONS_USED};
use image_map_row::sessions::session_at;
use image_parts::codes::outcome_coded;
use map_tables::{Outcome, Rejection, SessionRow, ShardKey};
use spec::{DataNodeId, Epoch};
use test_lines::words::number;

fn collection_of(k: ShardKey) {
    let x = k.collection;
    name(x);
}

fn at_incarnation(node: DataNodeId, incarnation: u64) {
    number(node.0);
    number(incarnation);
}

fn epochs(k: ShardKey, own: Epoch, given: Epoch) {
    key(k);
    number(own.0);
    number(given.0);
}

fn operands(r: Rejection, k: ShardKey) {
    match r {
        Rejection::Older => {}
        Rejection::Exists => collection_of(k),
        Rejection::ZeroSpec => {}
        Rejection::PlacementMismatch => {}
        Rejection::NotAlive(node) => number(node.0),
        Rejection::NoCollection => collection_of(k),
        Rejection::KnownIncarnation(node, known) => at_incarnation(node, known),
        Rejection::NotAtIncarnation(node, given) => at_incarnation(node, given),
        Rejection::NoShard => key(k),
        Rejection::OtherEpoch(own, given) => epochs(k, own, given),
        Rejection::AlreadyHeld(node) => number(node.0),
        Rejection::RemovesPrimary => {}
        Rejection::NotHeld(node) => number(node.0),
        Rejection::NotInSync(node) => number(node.0),
        Rejection::ShrinksPrimary => {}
        Rejection::AlreadyInSync(node) => number(node.0),
    }
}

fn outcome(o: Outcome, k: ShardKey) {
    match o {
        Outcome::Applied => {
            io::write_all(1, b" applied");
        }
        Outcome::Rejected(r) => {
            number(outcome_coded(o).code as u64);
            operands(r, k);
        }
    }
}

fn session(row: SessionRow) {
    io::write_all(1, b"session");
    number(row.client);
    number(row.seq);
    let o = row.outcome;
    let k = row.key;
    outcome(o, k);
    io::write_all(1, b"\n");
}

pub fn sessions(map: &[u8])
    requires { Few map.now }
{
    let count = num::get8(map, SESSIONS_USED) as usize;
    for i in 0..count {
        let row = session_at(map, SESSIONS + SESSION * i);
        session(row);
    }
}

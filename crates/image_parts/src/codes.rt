// Internal: the codes of an image, and back (specs/Codes.antt).
ghost use Rattle.std.specs.Prelude.{◌≡◌};
ghost use Rattle.spec.specs.Layout.Parts.{metric_of, metric_code};
ghost use Rattle.image_parts.specs.Codes.{flag_of, flag_code, primary_of, primary_code, primary_node, coded, rejection_of, outcome_of, rejection_coded, outcome_coded};

use crate::Coded;
use map_tables::{Outcome, Rejection};
use spec::{DataNodeId, Epoch, Metric};

// Internal: a flag's code, and back.
pub fn flag_of(code: u32) -> bool
    ensures { result ≡ flag_of code }
{
    code != 0
}

pub fn flag_code(flag: bool) -> u32
    ensures { result ≡ flag_code flag }
{
    if flag { 1 } else { 0 }
}

// Internal: a metric's code, and back.
pub fn metric_of(code: u32) -> Metric
    ensures { result ≡ metric_of code }
{
    if code == 0 {
        Metric::Euclidean
    } else {
        Metric::Angular
    }
}

pub fn metric_code(m: Metric) -> u32
    ensures { result ≡ metric_code m }
{
    match m {
        Metric::Euclidean => 0,
        Metric::Angular => 1,
    }
}

// Internal: a primary's code and node, and back.
pub fn primary_of(code: u32, node: u64) -> Option<DataNodeId>
    ensures { result ≡ primary_of code node }
{
    if code == 0 {
        None
    } else {
        Some(DataNodeId(node))
    }
}

pub fn primary_code(p: Option<DataNodeId>) -> u32
    ensures { result ≡ primary_code p }
{
    match p {
        None => 0,
        Some(_) => 1,
    }
}

pub fn primary_node(p: Option<DataNodeId>) -> u64
    ensures { result ≡ primary_node p }
{
    match p {
        None => 0,
        Some(n) => n.0,
    }
}

// A code that is not listed does not get here.
fn rejection_of(code: u32, first: u64, second: u64) -> Rejection
    ensures { result ≡ rejection_of (coded code first second) }
{
    let node = DataNodeId(first);
    match code {
        2 => Rejection::Exists,
        3 => Rejection::ZeroSpec,
        4 => Rejection::PlacementMismatch,
        5 => Rejection::NotAlive(node),
        6 => Rejection::NoCollection,
        7 => Rejection::KnownIncarnation(node, second),
        8 => Rejection::NotAtIncarnation(node, second),
        9 => Rejection::NoShard,
        10 => Rejection::OtherEpoch(Epoch(first), Epoch(second)),
        11 => Rejection::AlreadyHeld(node),
        12 => Rejection::RemovesPrimary,
        13 => Rejection::NotHeld(node),
        14 => Rejection::NotInSync(node),
        15 => Rejection::ShrinksPrimary,
        16 => Rejection::AlreadyInSync(node),
        _ => Rejection::Older,
    }
}

// Internal: a remembered outcome in three numbers, and back.
pub fn outcome_of(code: u32, first: u64, second: u64) -> Outcome
    ensures { result ≡ outcome_of (coded code first second) }
{
    if code == 0 {
        return Outcome::Applied;
    }
    Outcome::Rejected(rejection_of(code, first, second))
}

fn of(code: u32, first: u64, second: u64) -> Coded
    ensures { result ≡ coded code first second }
{
    Coded {
        code: code,
        first: first,
        second: second,
    }
}

fn rejection_coded(r: Rejection) -> Coded
    ensures { result ≡ rejection_coded r }
{
    match r {
        Rejection::Older => of(1, 0, 0),
        Rejection::Exists => of(2, 0, 0),
        Rejection::ZeroSpec => of(3, 0, 0),
        Rejection::PlacementMismatch => of(4, 0, 0),
        Rejection::NotAlive(n) => of(5, n.0, 0),
        Rejection::NoCollection => of(6, 0, 0),
        Rejection::KnownIncarnation(n, i) => of(7, n.0, i),
        Rejection::NotAtIncarnation(n, i) => of(8, n.0, i),
        Rejection::NoShard => of(9, 0, 0),
        Rejection::OtherEpoch(own, given) => of(10, own.0, given.0),
        Rejection::AlreadyHeld(n) => of(11, n.0, 0),
        Rejection::RemovesPrimary => of(12, 0, 0),
        Rejection::NotHeld(n) => of(13, n.0, 0),
        Rejection::NotInSync(n) => of(14, n.0, 0),
        Rejection::ShrinksPrimary => of(15, 0, 0),
        Rejection::AlreadyInSync(n) => of(16, n.0, 0),
    }
}

pub fn outcome_coded(o: Outcome) -> Coded
    ensures { result ≡ outcome_coded o }
{
    match o {
        Outcome::Applied => of(0, 0, 0),
        Outcome::Rejected(r) => rejection_coded(r),
    }
}

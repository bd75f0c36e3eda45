// Waiting for acks (node.rs, check_acks).
#![tactic(auto)]

ghost use Rattle.std.specs.Prelude.{◌≡◌, ◌-◌};
ghost use Rattle.spec.specs.Node.Client.{lacks, behind_since, to_shrink, wait_row};

use spec::Peer;

// Internal: a member of the ack set that has not acked the offset.
pub fn is_late(p: Peer, offset: u64) -> bool
    ensures { result ≡ lacks offset p }
{
    p.member && p.acked.0 < offset
}

// Internal: for how long it has been behind; a clock that ran back counts as no time.
pub fn elapsed(p: Peer, now: u64) -> u64
    ensures { result ≡ now - behind_since p now }
{
    if p.behind {
        now.saturating_sub(p.since)
    } else {
        0
    }
}

// Internal: a row after the wait.
pub fn row_waited(p: Peer, last: u64, now: u64, timeout: u64) -> Peer
    ensures { result ≡ wait_row last now timeout p }
{
    if is_late(p, last) {
        let mut q = p;
        q.proposing = p.proposing || timeout < elapsed(p, now);
        if p.behind {
            return q;
        }
        q.behind = true;
        q.since = now;
        return q;
    }
    p
}

// Internal: whether a Shrink is to be proposed.
pub fn shrinks(p: Peer, last: u64, now: u64, timeout: u64) -> bool
    ensures { result ≡ to_shrink last now timeout p }
{
    if is_late(p, last) {
        return timeout < elapsed(p, now) && !p.proposing;
    }
    false
}

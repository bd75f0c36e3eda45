// The lease (node.rs, heartbeats).
ghost use Rattle.std.specs.Prelude.{◌≡◌, ◌+◌, ◌≤◌};
ghost use Rattle.std.proofs.Math.Option.{some};
ghost use Rattle.spec.specs.Node.Lease.{before, raised};
ghost use Rattle.node_admit.specs.View.{view_expiry, Grants};

// Paper 01, 'The node': a lease holds while now < expiry.
pub fn leased(e: Option<u64>, now: u64) -> bool
    ensures { result ≡ before (view_expiry e) now }
{
    match e {
        None => false,
        Some(t) => now < t,
    }
}

// Internal: the later of the two ends.
pub fn raise(e: Option<u64>, end: u64) -> Option<u64>
    ensures { view_expiry result ≡ some (raised (view_expiry e) end) }
{
    match e {
        None => Some(end),
        Some(t) => Some(t.max(end)),
    }
}

// Internal: paper 01, 'The node', lease grant, past its checks: a grant for the current incarnation raises the expiry, one for another does nothing.
pub fn grant(own: u64, e: Option<u64>, incarnation: u64, sent: u64, lease: u64) -> Option<u64>
    requires { (sent ≤ 4611686018427387904) × (lease ≤ 4611686018427387904) }
    ensures { Grants own e incarnation sent lease result }
{
    if incarnation == own {
        return raise(e, sent + lease);
    }
    e
}

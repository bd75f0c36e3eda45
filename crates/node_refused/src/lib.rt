// The one count of refused Write and Search calls (paper 01, 'The node'). It is lent apart from a node's state, so that a call refused for a
// malformed state counts too.
#![tactic(auto)]

ghost use Rattle.std.specs.Prelude.{◌≡◌};
ghost use Rattle.node_refused.specs.Count.{bumped};

// How many Write and Search calls were refused; it stops at the largest u32.
#[derive(Clone, Copy)]
pub struct Refused {
    pub count: u32,
}

// One more, or the largest value again.
#[tactic(auto, unfolding(spec::specs::Node::Refused::counted))]
pub fn next_count(n: u32) -> u32
    ensures { result ≡ bumped n }
{
    n.saturating_add(1)
}

// One more refused call, in place.
pub fn count_refused(r: &mut Refused)
    ensures { r.new.count ≡ bumped r.old.count }
{
    r.count = next_count(r.count);
}

// One more refused call, through a record that is made for it and lent.
pub fn one_more(n: u32) -> u32
    ensures { result ≡ bumped n }
{
    let mut r = Refused { count: n };
    count_refused(&mut r);
    r.count
}

// What a worker does next, and the number that hosts see. Internal.
ghost use Rattle.std.specs.Prelude.{◌≡◌};
ghost use Rattle.calls_worker.specs.Numbers.{code_of, number_of};

use calls_parts::refusal::Refusal;

#[derive(Clone, Copy, Debug, PartialEq, Eq)]
pub enum Next {
    Wait,
    Stop,
    // The request stands in the output, and its length beside the answer.
    Align,
    Replicate,
    Copy,
}

// The number that hosts see.
impl From<Next> for u32 {
    ghost from_gives = { λ what n. n ≡ code_of what };

    fn from(what: Next) -> u32 {
        match what {
            Next::Wait => 0,
            Next::Stop => 1,
            Next::Align => 2,
            Next::Replicate => 3,
            Next::Copy => 4,
        }
    }
}

// That of what comes next, or of the refusal.
pub fn number(said: Result<Next, Refusal>) -> u32
    ensures { result ≡ number_of said }
{
    match said {
        Ok(what) => u32::from(what),
        Err(why) => u32::from(why),
    }
}

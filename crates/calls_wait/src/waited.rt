// What a wait says, and the number that hosts see.
ghost use Rattle.std.specs.Prelude.{◌≡◌};
ghost use Rattle.calls_wait.specs.Numbers.{said_of, number_of};

use calls_parts::refusal::Refusal;

#[derive(Clone, Copy, Debug, PartialEq, Eq)]
pub enum Waited {
    // Every member of the ack set has acked.
    Done,
    Waiting,
}

// The number that hosts see.
impl From<Waited> for u32 {
    ghost from_gives = { λ said n. n ≡ said_of said };

    fn from(said: Waited) -> u32 {
        match said {
            Waited::Done => 0,
            Waited::Waiting => 1,
        }
    }
}

// 0 done, 1 waiting, or the number of the refusal.
pub fn number(said: Result<Waited, Refusal>) -> u32
    ensures { result ≡ number_of said }
{
    match said {
        Ok(how) => u32::from(how),
        Err(why) => u32::from(why),
    }
}

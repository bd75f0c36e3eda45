// What an ack tells, and the number that hosts see.
ghost use Rattle.std.specs.Prelude.{◌≡◌};
ghost use Rattle.calls_ack.specs.Numbers.{told_of, number_of};

use calls_parts::refusal::Refusal;

#[derive(Clone, Copy, Debug, PartialEq, Eq)]
pub enum Told {
    Noted,
    // The peer joins the ack set: its Expand is to be proposed.
    Expand,
}

// The number that hosts see.
impl From<Told> for u32 {
    ghost from_gives = { λ said n. n ≡ told_of said };

    fn from(said: Told) -> u32 {
        match said {
            Told::Noted => 0,
            Told::Expand => 1,
        }
    }
}

// 0 noted, 1 an Expand is to be proposed, or the number of the refusal.
pub fn number(said: Result<Told, Refusal>) -> u32
    ensures { result ≡ number_of said }
{
    match said {
        Ok(what) => u32::from(what),
        Err(why) => u32::from(why),
    }
}

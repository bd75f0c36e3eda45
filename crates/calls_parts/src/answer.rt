// The number beside an answer. Internal.
ghost use Rattle.std.specs.Prelude.{◌≡◌};
ghost use Rattle.calls_parts.specs.Answer.{answer_lent, number_put};

// Puts it, and says whether there is room for it; without room no byte changes.
pub fn put_number(answer: &mut [u8], x: u64) -> bool
    ensures { (result ≡ answer_lent answer.old) × (answer.new ≡ number_put answer.old x) }
{
    if answer.len() < 8 {
        return false;
    }
    num::put8(answer, 0, x);
    true
}

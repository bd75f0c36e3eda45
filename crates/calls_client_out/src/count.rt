// The count of refused client calls in its four bytes (paper 01, 'The node'). Internal.
ghost use Rattle.std.specs.Prelude.{◌≡◌};
ghost use Rattle.calls_client_out.specs.Count.{count_put};

use node_refused::one_more;

// One more, if the call was refused and its count is lent.
pub fn count_call(refused: &mut [u8], number: u32)
    ensures { refused.new ≡ count_put refused.old number }
{
    if number == 0 {
        return;
    }
    if refused.len() < 4 {
        return;
    }
    let before = num::get4(refused, 0);
    num::put4(refused, 0, one_more(before));
}

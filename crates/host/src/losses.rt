// Which projector matters (paper 02, 2.9).
ghost use Rattle.calls_losses.specs.Calls.{Loses};

pub fn catalogue_place_losses(map: &[u8], name: &[u8], list: &mut [u8], answer: &mut [u8]) -> u32
    ensures { Loses map.now name.now list.old list.new answer.old answer.new result }
{
    calls_losses::place_losses(map, name, list, answer)
}

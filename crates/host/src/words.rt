// Rejections in words (paper 02, 2.1).
ghost use Rattle.calls_apply_words.specs.Calls.{AppliesInWordsTo};

pub fn catalogue_apply_words(
    map: &mut [u8],
    request: &[u8],
    text: &mut [u8],
    answer: &mut [u8],
) -> u32
    ensures { AppliesInWordsTo map.old map.new request.now text.old text.new answer.old answer.new result }
{
    calls_apply_words::apply_words(map, request, text, answer)
}

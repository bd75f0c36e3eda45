// Searching a whole collection (paper 02, 2.2).
ghost use Rattle.calls_join.specs.Calls.{JoinsFor};

pub fn catalogue_join(
    shards: u32,
    k: u32,
    answers: &[u8],
    hits: &mut [u8],
    answer: &mut [u8],
) -> u32
    ensures { JoinsFor shards k answers.now hits.old answer.old hits.new answer.new result }
{
    calls_join::join_call(shards, k, answers, hits, answer)
}

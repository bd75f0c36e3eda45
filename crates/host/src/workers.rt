// A node's workers.
ghost use Rattle.calls_worker.specs.Steps.{asking, outputs, StepsImage};

pub fn catalogue_step(
    header: &[u8],
    stores: &[u8],
    name: &[u8],
    shard: u32,
    epoch: u64,
    peer: u64,
    metric: u8,
    request: &mut [u8],
    answer: &mut [u8],
) -> u32
    ensures { StepsImage header.now stores.now (asking name.now shard epoch peer metric)
        (outputs request.old answer.old) (outputs request.new answer.new) result }
{
    let said = calls_worker::step(
        header, stores, name, shard, epoch, peer, metric, request, answer,
    );
    calls_worker::next::number(said)
}

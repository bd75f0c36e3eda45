// The shard map.
ghost use Rattle.calls_map.specs.Calls.{AppliesTo, Empties};
ghost use Rattle.calls_map.specs.Places.{Places, Replaces};

#[unsafe(no_mangle)]
pub extern "C" fn catalogue_empty_map(map: &mut [u8]) -> u32
    ensures { Empties map.old map.new result }
{
    host::maps::catalogue_empty_map(map)
}

#[unsafe(no_mangle)]
pub extern "C" fn catalogue_apply(map: &mut [u8], request: &[u8]) -> u32
    ensures { AppliesTo map.old map.new request.now result }
{
    host::maps::catalogue_apply(map, request)
}

#[unsafe(no_mangle)]
pub extern "C" fn catalogue_place(
    map: &[u8],
    shards: u32,
    replication: u32,
    lists: &mut [u8],
) -> u32
    ensures { Places map.now shards replication lists.old lists.new result }
{
    host::maps::catalogue_place(map, shards, replication, lists)
}

#[unsafe(no_mangle)]
pub extern "C" fn catalogue_replacement(
    map: &[u8],
    name: &[u8],
    shard: u32,
    answer: &mut [u8],
) -> u32
    ensures { Replaces map.now name.now shard answer.old answer.new result }
{
    host::maps::catalogue_replacement(map, name, shard, answer)
}

// How many placements pass (paper 02, 2.14).
ghost use Rattle.calls_count.specs.Calls.{spec_given, Tallies};

#[unsafe(no_mangle)]
pub extern "C" fn catalogue_count_placements(
    map: &[u8],
    name: &[u8],
    dimension: u32,
    shards: u32,
    replication: u32,
    ids: &[u8],
    lists: u32,
    nodes: u32,
    counts: &mut [u8],
) -> u32
    ensures { Tallies map.now name.now (spec_given dimension shards replication) ids.now lists nodes
        counts.old counts.new result }
{
    host::counts::catalogue_count_placements(
        map,
        name,
        dimension,
        shards,
        replication,
        ids,
        lists,
        nodes,
        counts,
    )
}

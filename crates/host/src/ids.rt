// Which shard of its collection holds an id: where a host sends what concerns it.
ghost use Rattle.std.specs.Prelude.{◌≡◌};
ghost use Rattle.spec.specs.Layout.ShardOf.{shard_of};

pub fn catalogue_shard_of(id: u64, shards: u32) -> u32
    ensures { result ≡ shard_of id shards }
{
    wire_read::placed::shard_of(id, shards)
}

// Which shard of its collection holds an id (the source's `shard_of`).
ghost use Rattle.std.specs.Prelude.{◌≡◌};
ghost use Rattle.spec.specs.Layout.ShardOf.{shard_of};

// The SplitMix64 finaliser of the id, modulo the number of shards; no shards count as one.
pub fn shard_of(id: u64, shards: u32) -> u32
    ensures { result ≡ shard_of id shards }
{
    let a = std::num::wrapping_add_u64(id, 0x9E37_79B9_7F4A_7C15);
    let b = num::wrapping_mul(a ^ (a >> 30), 0xBF58_476D_1CE4_E5B9);
    let c = num::wrapping_mul(b ^ (b >> 27), 0x94D0_49BB_1331_11EB);
    let z = c ^ (c >> 31);
    if shards == 0 {
        return 0;
    }
    (z % (shards as u64)) as u32
}

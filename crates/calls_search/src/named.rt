// Search at the shard of a key (paper 01, 'Who is turned down', Search): the lent state's test, then the shard.
ghost use Rattle.std.specs.Prelude.{◌≡◌, true};
ghost use Rattle.spec.specs.Node.WellFormed.{well_formed_vector};
ghost use Rattle.map_tables.specs.Names.{view_key};
ghost use Rattle.calls_client_out.specs.Found.{ended};
ghost use Rattle.calls_parts.specs.Refusals.{number_of};
ghost use Rattle.calls_search.specs.Served.{SearchesKey};

use crate::held::search_held;
use calls_parts::refusal::Refusal;
use image_node_check::find;
use map_tables::ShardKey;
use node_lent::Lent;
use spec::Epoch;

// 24, 17, then the search on the shard.
pub fn search_named(
    header: &[u8],
    stores: &[u8],
    key: ShardKey,
    clock: u64,
    epoch: Epoch,
    k: u32,
    query: &[f32],
    hits: &mut [u8],
    answer: &mut [u8],
) -> Result<(), Refusal>
    requires { well_formed_vector query.now ≡ true }
    ensures { SearchesKey header.now stores.now (view_key key) clock epoch.0 k query.now hits.old
        answer.old (ended (number_of result) hits.new answer.new) }
{
    let place = find(header, stores, key);
    match place {
        Lent::Malformed => {
            return Err(Refusal::Malformed);
        }
        Lent::Absent => {
            return Err(Refusal::UnknownShard);
        }
        Lent::At(at) => {
            return search_held(
                header, stores, key, at, clock, epoch, k, query, hits, answer,
            );
        }
    }
}

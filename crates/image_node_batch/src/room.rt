// Whether a log has room for a batch (paper 01, 'Who is turned down', CopyShard, 23). Internal: the message was read.
ghost use Rattle.std.specs.Prelude.{◌≤◌};
ghost use Rattle.log_domain.specs.Parts.{entries_in, EntriesThere};
ghost use Rattle.image_node_batch.specs.Batch.{RoomAnswered};

use image_store_check::columns::ENTRIES;
use log_domain::growth::grows_to;
use wire_read::Part;

// A log with as many free places as the batch has entries is not asked which of them it stores.
pub fn has_room(s: &[u8], p: Part, count: usize) -> bool
    requires { EntriesThere s.now p × (count ≤ 1024) }
    ensures { RoomAnswered (entries_in s.now p) count result }
{
    if count + p.len <= ENTRIES {
        return true;
    }
    grows_to(s, p, count) <= ENTRIES
}

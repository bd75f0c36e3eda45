// The calls on a shard map as a host makes them: the map is a byte image that the host owns (docs/IMAGES.md), a request is bytes. A call
// answers a number; a refused one leaves every byte as it was. What an answer says stands in specs/Calls.antt. place and replacement are crate
// `calls_place`: their answers as bytes, and what these say, are here (specs/Places.antt).
#![tactic(auto)]

ghost use Rattle.std.specs.Prelude.{◌≡◌, ◌≤◌, length};
ghost use Rattle.spec.specs.Map.Tables.{empty_map};
ghost use Rattle.image_map.specs.Image.{map_stored};
ghost use Rattle.calls_map.specs.Calls.{Empties};

pub mod lists;
pub mod numbers;
pub mod replaced;

// Version and counts of a map without rows.
fn put_empty(map: &mut [u8])
    requires { 26536 ≤ length map.old }
    ensures { map.new ≡ map_stored map.old empty_map }
{
    num::put8(map, 0, 0);
    num::put8(map, 8, 0);
    num::put8(map, 16, 0);
    num::put8(map, 24, 0);
    num::put8(map, 32, 0);
}

// An empty map, at version 0. 24 for a buffer that is too short.
pub fn empty_map(map: &mut [u8]) -> u32
    ensures { Empties map.old map.new result }
{
    if map.len() < 26536 {
        return 24;
    }
    put_empty(map);
    0
}

// The map that requests are first applied to.
ghost use Rattle.std.specs.Prelude.{◌≤◌, length};
ghost use Rattle.test_input.specs.Stream.{Starts};

use calls_map::empty_map;

// Without rows, at version 0.
pub fn start(map: &mut [u8])
    requires { 26536 ≤ length map.old }
    ensures { Starts map.new }
{
    empty_map(map);
}

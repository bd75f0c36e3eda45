// The neighbours of a search in a host's buffer, 12 bytes each. Internal.
ghost use Rattle.std.specs.Prelude.{◌≡◌, ◌/◌, min};

use log_search::answer::least;

// How many neighbours a buffer of so many bytes has room for; 1,024 are as many as a log can have.
pub fn room_of(len: usize) -> usize
    ensures { result ≡ min 1024 (len / 12) }
{
    least(1024, len / 12)
}

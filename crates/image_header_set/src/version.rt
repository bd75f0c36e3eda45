// The header with another version.
ghost use Rattle.image_header.specs.Image.{node_at};
ghost use Rattle.image_header.specs.Becomes.{HeaderWrites};
ghost use Rattle.image_header_check.specs.Rows.{Counts};
ghost use Rattle.image_header_set.specs.Version.{version_set};

use crate::back::put_back;
use image_layout::header::KNOWN;

// The whole header in the canonical form, its node knowing that version of the map.
pub fn put_version(out: &mut [u8], count: usize, version: u64)
    requires { Counts out.old count }
    ensures { HeaderWrites out.old out.new (version_set (node_at out.old) version) }
{
    num::put8(out, KNOWN, version);
    put_back(out, count);
}

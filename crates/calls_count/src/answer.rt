// The answer as bytes: 48 for the six counts. Internal.
ghost use Rattle.std.specs.Prelude.{◌≡◌};
ghost use Rattle.spec_count.specs.Counts.{six};
ghost use Rattle.image_map_count.specs.Read.{view_six};
ghost use Rattle.image_map_count.specs.Answers.{counting_of};
ghost use Rattle.calls_count.specs.Calls.{Answers};

use image_map_count::Uncounted;
use wire_put::put::put_words8;

fn put_six(out: &mut [u8], counts: [u64; 6]) -> u32
    ensures { Answers (six (view_six counts)) out.old out.new result }
{
    if out.len() < 48 {
        return 23;
    }
    put_words8(out, 0, &counts);
    0
}

pub fn answer_counts(out: &mut [u8], counted: Result<[u64; 6], Uncounted>) -> u32
    ensures { Answers (counting_of counted) out.old out.new result }
{
    match counted {
        Ok(counts) => put_six(out, counts),
        Err(Uncounted::Beyond) => 35,
        Err(Uncounted::TooWide) => 36,
        Err(Uncounted::Malformed) => 24,
    }
}

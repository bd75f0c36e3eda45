// What the programs read and print alike. Here: the line of a request on the shard map (paper 01, 'Program applymap').
#![tactic(auto)]

ghost use Rattle.test_lines.specs.Words.{WordFor, LineFor};

pub mod parts;
pub mod print;
pub mod words;

// The word of a line.
#[derive(Clone, Copy)]
pub enum Word {
    Applied,
    Rejected,
    Refused,
}

// A line of the output.
#[derive(Clone, Copy)]
pub struct Line {
    pub index: u64,
    pub word: Word,
    pub reason: u64,
    pub version: u64,
}

// 0 is applied, 1 to 16 rejected, the rest refused.
fn word_of(number: u32) -> Word
    ensures { WordFor number result }
{
    if number == 0 {
        return Word::Applied;
    }
    if number <= 16 {
        return Word::Rejected;
    }
    Word::Refused
}

// The line of a request: the number that it was answered, and the map's version afterwards.
pub fn line_of(index: u64, number: u32, version: u64) -> Line
    ensures { LineFor index number version result }
{
    let w = word_of(number);
    Line {
        index: index,
        word: w,
        reason: number as u64,
        version: version,
    }
}

// Numbers and lines of text.
ghost use Rattle.std.specs.Prelude.{◌≤◌, ◌<◌, length};

// A number, and where what follows it begins.
#[derive(Drop)]
pub struct Number {
    pub minus: bool,
    pub size: u32,
    pub next: usize,
}

// Past the byte b, if it stands there.
fn past(s: &[u8], at: usize, b: u8) -> usize
    requires { at ≤ length s.now }
    ensures { (at ≤ result) × (result ≤ length s.now) }
{
    if at < s.len() {
        if s[at] == b {
            return at + 1;
        }
    }
    at
}

// One more digit; what does not fit stays at the largest number.
fn with_digit(n: u32, b: u8) -> u32 {
    if 429496728 < n {
        return 4294967295;
    }
    n * 10 + (b % 16) as u32
}

fn digits(s: &[u8], from: usize, minus: bool) -> Number
    requires { from ≤ length s.now }
    ensures { (from ≤ result.next) × (result.next ≤ length s.now) }
{
    let mut size: u32 = 0;
    for at in from..s.len() {
        let b = s[at];
        if !b.is_ascii_digit() {
            return Number {
                minus,
                size,
                next: at,
            };
        }
        size = with_digit(size, b);
    }
    Number {
        minus,
        size,
        next: s.len(),
    }
}

// The number behind a blank.
pub fn number_at(s: &[u8], from: usize) -> Number
    requires { from ≤ length s.now }
    ensures { result.next ≤ length s.now }
{
    let at = past(s, from, b' ');
    let first = past(s, at, b'-');
    digits(s, first, at < first)
}

// Behind the end of the line.
pub fn next_line(s: &[u8], from: usize) -> usize
    requires { from < length s.now }
    ensures { (from < result) × (result ≤ length s.now) }
{
    for at in from..s.len() {
        if s[at] == b'\n' {
            return at + 1;
        }
    }
    s.len()
}

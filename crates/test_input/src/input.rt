// The bytes at hand: what is left of them moves to the front of the buffer, and more is read behind it.
ghost use Rattle.std.specs.Prelude.{◌≡◌, ◌-◌, ◌≤◌, length, take, drop};

use std::io::Read;

// The bytes from one position to another, moved to the front.
fn to_front(buf: &mut [u8], at: usize, n: usize)
    requires { (at ≤ n) × (n ≤ length buf.old) }
    ensures kept { take (n - at) buf.new ≡ take (n - at) (drop at buf.old) }
    ensures same { length buf.new ≡ length buf.old }
{
    let rest = n - at;
    for i in 0..rest {
        buf[i] = buf[at + i];
    }
}

// One read of standard input, which takes what has arrived: how many bytes came, 0 at its end. A read that fails counts as
// the end.
fn read_more<R: Input>(rt: &R, part: &mut [u8]) -> usize
    ensures { (result ≤ length part.old) × (length part.new ≡ length part.old) }
{
    rt.reader().read(part).unwrap_or(0)
}

// How many bytes are at hand afterwards. Those that were left stand in front.
pub fn refill<R: Input>(rt: &R, buf: &mut [u8], at: usize, n: usize) -> usize
    requires { (at ≤ n) × (n ≤ length buf.old) }
    ensures within { (n - at ≤ result) × (result ≤ length buf.new) }
    ensures kept { take (n - at) buf.new ≡ take (n - at) (drop at buf.old) }
    ensures same { length buf.new ≡ length buf.old }
{
    to_front(buf, at, n);
    let rest = n - at;
    let more = read_more(rt, &mut buf[rest..]);
    rest + more
}

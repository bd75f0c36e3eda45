// The layout's second edition (paper 02, 2.8): who calls, and the message of the first edition that 28 and 29 are with a caller. Below the entry points of Write
// and Search, which read no other message of it.
#![tactic(auto)]

ghost use Rattle.std.specs.Prelude.{◌≡◌, ◌≤◌, true, eqb, length, take};
ghost use Rattle.spec.specs.Lists.{◌or◌};
ghost use Rattle.spec_callers.specs.Editions.{is_second, first_code, plain};
ghost use Rattle.wire_caller.specs.Callers.{caller_shown};

use wire_put::put::{put_byte, put_bytes};

// Caller 0, as a message of the first edition means; another; or a 28 or 29 that names none.
#[derive(Drop)]
pub enum Caller {
    First,
    By(u64),
    Nobody,
}

// A code of the second edition.
fn is_second(code: u8) -> bool
    ensures { result ≡ (eqb code 0x28 or eqb code 0x29) }
{
    code == 0x28 || code == 0x29
}

// Who calls.
pub fn caller_of(s: &[u8]) -> Caller
    ensures { result ≡ caller_shown s.now }
{
    if s.len() == 0 {
        return Caller::First;
    }
    let second = is_second(s[0]);
    if !second {
        return Caller::First;
    }
    if s.len() < 9 {
        return Caller::Nobody;
    }
    let who = num::get8(s, 1);
    if who == 0 {
        return Caller::Nobody;
    }
    Caller::By(who)
}

// The code of the same message without a caller.
fn first_code(code: u8) -> u8
    ensures { result ≡ first_code code }
{
    if code == 0x28 {
        return 0x23;
    }
    0x24
}

// A 28 or 29 with a caller, without it: how many bytes of the buffer it has. None has more than 192 bytes (paper 02, 2.8). Internal.
pub fn put_plain(s: &[u8], out: &mut [u8]) -> usize
    requires { (is_second s.now ≡ true) × (9 ≤ length s.now) × (length s.now ≤ 192) × (length out.old ≡ 184) }
    ensures { take result out.new ≡ plain s.now }
{
    let code = first_code(s[0]);
    put_byte(out, 0, code);
    put_bytes(out, 1, &s[9..]);
    s.len() - 8
}

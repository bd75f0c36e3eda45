// Replays the oracle's stored roots: bit patterns of four bytes each on standard input, and a line with the bits of each
// root on standard output. stdin and stdout are oracle/stored/roots/all.in and all.out, the answers of a second root
// routine and of the machine.
#![tactic(auto)]

ghost use Rattle.std.specs.Prelude.{◌≡◌, ◌<◌};
ghost use Rattle.std.specs.Float.{binary32};
ghost use Rattle.std.specs.Float.Ieee.{to_bits, of_bits};
ghost use Rattle.spec.specs.Nearest.Root.{sqrt};

// The root's bits, of a finite float with a plus sign. Of the others only -0 is listed, which is its own root.
fn root_of(b: u32) -> u32
    ensures { b < 2139095040 → result ≡ to_bits binary32 (sqrt binary32 (of_bits binary32 b)) }
{
    if 2139095040 <= b {
        return b;
    }
    let x = f32::from_bits(b);
    let y = float_distance::root::sqrt_f32(x);
    f32::to_bits(y)
}

fn print(r: u32) {
    io::print_hex(1, r as u64, 8);
    io::write_all(1, b"\n");
}

fn replay(s: &[u8]) {
    let (patterns, _) = s.as_chunks::<4>();
    for b in patterns {
        print(root_of(num::get4(b, 0)));
    }
}

fn main() {
    let mut buf = io::large_buffer();
    let n = io::read_full(0, &mut buf);
    replay(&buf[..n]);
}

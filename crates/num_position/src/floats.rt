// A signed whole number as a float, exact below 2^24. Internal.
ghost use Rattle.std.specs.Prelude.{◌≡◌, cond, ◌<◌, pos, neg_ℤ};
ghost use Rattle.std.specs.Float.{binary32};
ghost use Rattle.std.specs.Float.Ieee.{of_int};

// Zero has a plus under either sign.
pub fn float_of(minus: bool, n: u32) -> f32
    requires { n < 16777216 }
    ensures { result ≡ of_int binary32 (cond minus (neg_ℤ (pos n)) (pos n)) }
{
    let x = n as f32;
    if minus {
        return 0.0 - x;
    }
    x
}

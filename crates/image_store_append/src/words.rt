// A column of numbers of 8 bytes, changed where it stands. Internal: a caller shows that the bytes are there.
ghost use Rattle.std.specs.Prelude.{◌≡◌, ◌∷◌, ◌++◌, ◌+◌, ◌*◌, ◌≤◌, ◌<◌, length, take, drop};
ghost use Rattle.image_store.specs.Image.{words};
ghost use Rattle.image_store_append.specs.Put.{words_put};

// v put in at place i of the n numbers from `at` on: those from there on move up.
pub fn insert_word(out: &mut [u8], at: usize, n: usize, i: usize, v: u64)
    requires { (i ≤ n) × (at + 8 * (n + 1) ≤ length out.old) }
    ensures { out.new ≡ words_put out.old at (take i (words 8 n out.old at) ++ v ∷ drop i (words 8 n out.old at)) }
{
    for k in (i..n).rev() {
        let x = num::get8(out, at + 8 * k);
        num::put8(out, at + 8 * (k + 1), x);
    }
    num::put8(out, at + 8 * i, v);
}

// The number at place i taken out: those behind it move down.
pub fn remove_word(out: &mut [u8], at: usize, n: usize, i: usize)
    requires { (i < n) × (at + 8 * n ≤ length out.old) }
    ensures { out.new ≡ words_put out.old at (take i (words 8 n out.old at) ++ drop (i + 1) (words 8 n out.old at)) }
{
    for k in i..n - 1 {
        let x = num::get8(out, at + 8 * (k + 1));
        num::put8(out, at + 8 * k, x);
    }
}

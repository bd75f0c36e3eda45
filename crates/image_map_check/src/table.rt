// The rows of a table, one after the other, each by a test.
ghost use Rattle.std.specs.Prelude.{◌≡◌, true, false, ℕ, ◌-◌, ◌≤◌, ◌<◌};

// The place of the first of `count` rows that passes, or `count`.
pub fn first_passing<F: Fn(usize) -> bool>(count: usize, passes: F) -> usize
    requires { (i : ℕ) → i < count → F.pre passes i }
    ensures within { result ≤ count }
    ensures before { (i : ℕ) → i < result → F.post passes i false }
    ensures found { result < count → F.post passes result true }
{
    for i in 0..count {
        if passes(i) {
            return i;
        }
    }
    count
}

// Whether each of `count` rows passes, tested with the place of the row before it; the first, which has none, with its own.
pub fn each_follows<F: Fn(usize, usize) -> bool>(count: usize, follows: F) -> bool
    requires { (i : ℕ) → i < count → F.pre follows i (i - 1) }
    ensures all { result ≡ true → (i : ℕ) → i < count → F.post follows i (i - 1) true }
    ensures some { result ≡ false → (i : ℕ) × (i < count) × ((k : ℕ) → k < i → F.post follows k (k - 1) true) × F.post follows i (i - 1) false }
{
    let mut last: usize = 0;
    for i in 0..count {
        if !follows(i, last) {
            return false;
        }
        last = i;
    }
    true
}

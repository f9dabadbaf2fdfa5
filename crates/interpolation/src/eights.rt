// A count over places of which eight are looked at together.
ghost use Rattle.std.specs.Prelude.{◌≡◌, ◌+◌, ◌≤◌, ◌<◌, ℕ, Bool};
ghost use Rattle.std.specs.List.{count_by, range_with_len};

// How many of the numbers below n pass a test: `eight` counts eight numbers from one on, and `one`
// tells of one number whether it passes. No early exit, so that eight are compared at once; the loops
// are over numbers, since the two functions have the lists.
#[tactic(auto, using(crate::proofs::Counting::count_more), unfolding(crate::proofs::Counting::count))]
pub fn count_below<E: Fn(usize) -> usize, O: Fn(usize) -> bool>(n: usize, eight: E, one: O) -> usize
    requires eights { (i : ℕ) → i + 8 ≤ n → E.pre eight i }
    requires ones { (i : ℕ) → i < n → O.pre one i }
    requires few { (i k : ℕ) → E.post eight i k → k ≤ 8 }
    ensures within { result ≤ n }
    ensures counted { (p : ℕ → Bool) → ((i k : ℕ) → i + 8 ≤ n → E.post eight i k → k ≡ count_by p (range_with_len i 8)) → ((i : ℕ) (b : Bool) → i < n → O.post one i b → b ≡ p i)
        → result ≡ count_by p (range_with_len 0 n) }
{
    let whole = n / 8;
    let mut count = 0usize;
    for k in 0..whole {
        count += eight(8 * k);
    }
    for i in 8 * whole..n {
        if one(i) {
            count += 1;
        }
    }
    count
}

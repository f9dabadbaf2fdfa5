// Lists filled by a function, and sums by one: one element or one addend after the other. A second list
// is read by index: of what `zip` over `iter_mut` lends a proof knows nothing.
ghost use Rattle.std.specs.Prelude.{◌≡◌, ◌<◌, ℕ, Float, map, length, get_or};
ghost use Rattle.std.specs.Float.{nan};
ghost use Rattle.elementary.specs.Lists.{list_of, sum_to};

// Element k becomes f(k). Where f gives what v says, the list is that of v.
#[tactic(auto, using(crate::proofs::Filled::filled_all))]
pub fn fill_by<F: Fn(usize) -> f32>(out: &mut [f32], f: F)
    requires { (k : ℕ) → k < length out.old → F.pre f k }
    ensures { (v : ℕ → Float) → ((k : ℕ) (y : Float) → k < length out.old → F.post f k y → y ≡ v k) → out.new ≡ list_of (length out.old) v }
{
    for (k, y) in out.iter_mut().enumerate() {
        *y = f(k);
    }
}

// Each element of `out` becomes f of the one of `xs`.
#[tactic(auto, using(crate::proofs::Mapped::filled_map))]
pub fn map_into<F: Fn(f32) -> f32>(xs: &[f32], out: &mut [f32], f: F)
    requires lengths { length out.old ≡ length xs.now }
    requires callable { F.IsAlwaysCallable f }
    ensures { (v : Float → Float) → ((x y : Float) → F.post f x y → y ≡ v x) → out.new ≡ map v xs.now }
{
    for (i, y) in out.iter_mut().enumerate() {
        *y = f(xs[i]);
    }
}

// Each element of `out` becomes f of the ones of `xs` and `ys`.
#[tactic(auto, using(crate::proofs::Filled::filled_all))]
pub fn zip_into<F: Fn(f32, f32) -> f32>(xs: &[f32], ys: &[f32], out: &mut [f32], f: F)
    requires lengths { (length xs.now ≡ length out.old) × (length ys.now ≡ length out.old) }
    requires callable { F.IsAlwaysCallable f }
    ensures { (v : ℕ → Float) → ((k : ℕ) (y : Float) → k < length out.old → F.post f (get_or xs.now k nan) (get_or ys.now k nan) y → y ≡ v k) → out.new ≡ list_of (length out.old) v }
{
    for (i, z) in out.iter_mut().enumerate() {
        *z = f(xs[i], ys[i]);
    }
}

// Each element becomes f of itself.
#[tactic(auto, using(crate::proofs::Mapped::filled_map))]
pub fn map_in_place<F: Fn(f32) -> f32>(xs: &mut [f32], f: F)
    requires { F.IsAlwaysCallable f }
    ensures { (v : Float → Float) → ((x y : Float) → F.post f x y → y ≡ v x) → xs.new ≡ map v xs.old }
{
    for x in xs.iter_mut() {
        *x = f(*x);
    }
}

// f(0) + f(1) + .., n addends, from +0 on: there is no list, but numbers that f is given.
#[tactic(auto, unfolding(crate::specs::Lists::sum_to))]
pub fn sum_by<F: Fn(usize) -> f32>(n: usize, f: F) -> f32
    requires { (k : ℕ) → k < n → F.pre f k }
    ensures { (v : ℕ → Float) → ((k : ℕ) (y : Float) → k < n → F.post f k y → y ≡ v k) → result ≡ sum_to v n }
{
    let mut sum = 0.0;
    for i in 0..n {
        sum = sum + f(i);
    }
    sum
}

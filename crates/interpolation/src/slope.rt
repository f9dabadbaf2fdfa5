// The derivatives at the ends of a spline's segment: `d0` and `d1` of interpolation.rs, by finite
// differences. The values at the nodes come from a function, and those at the segment's own ends, f0
// and f1, are at hand.
ghost use Rattle.std.specs.Prelude.{◌≡◌, ◌+◌, ◌<◌, ℕ, Float, length};
ghost use Rattle.interpolation.specs.Slope as Spec;

// The slope at the start of the segment i, times its width.
#[tactic(auto, unfolding(crate::specs::Slope::slope_before, crate::specs::Slope::width))]
pub fn slope_before<F: Fn(usize) -> f32>(x: &[f32], i: usize, f0: f32, f1: f32, values: F) -> f32
    requires segment { i + 1 < length x.now }
    requires callable { (k : ℕ) → k < length x.now → F.pre values k }
    ensures { (v : ℕ → Float) → ((k : ℕ) (y : Float) → k < length x.now → F.post values k y → y ≡ v k) → f0 ≡ v i → f1 ≡ v (i + 1) → result ≡ Spec.slope_before x.now v i }
{
    if i > 0 {
        let x1 = x[i + 1];
        (x1 - x[i]) * (f1 - values(i - 1)) / (x1 - x[i - 1])
    } else {
        f1 - f0
    }
}

// The slope at its end, times its width.
#[tactic(auto, unfolding(crate::specs::Slope::slope_after, crate::specs::Slope::width))]
pub fn slope_after<F: Fn(usize) -> f32>(x: &[f32], i: usize, f0: f32, f1: f32, values: F) -> f32
    requires segment { i + 1 < length x.now }
    requires callable { (k : ℕ) → k < length x.now → F.pre values k }
    ensures { (v : ℕ → Float) → ((k : ℕ) (y : Float) → k < length x.now → F.post values k y → y ≡ v k) → f0 ≡ v i → f1 ≡ v (i + 1) → result ≡ Spec.slope_after x.now v i }
{
    if i + 2 < x.len() {
        let x0 = x[i];
        (x[i + 1] - x0) * (values(i + 2) - f0) / (x[i + 2] - x0)
    } else {
        f1 - f0
    }
}

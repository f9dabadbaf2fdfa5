// The sign of an `f32`.
ghost use Rattle.std.specs.Prelude.{◌≡◌};
ghost use Rattle.elementary.specs.Sign as Sign;

// x with its sign cleared: -0 gives +0, and a NaN a NaN.
#[tactic(auto, using(crate::proofs::Signs::abs_is))]
pub fn abs(x: f32) -> f32
    ensures { result ≡ Sign.abs x }
{
    x.abs()
}

// v where it is above zero, and +0 otherwise, at a NaN too.
#[tactic(auto, unfolding(crate::specs::Sign::max0))]
pub fn max0(v: f32) -> f32
    ensures { result ≡ Sign.max0 v }
{
    if v > 0.0 { v } else { 0.0 }
}

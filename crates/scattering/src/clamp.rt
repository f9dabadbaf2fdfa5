// `clamp_t` of pbrt.rs, for any limits: std's `clamp` asks that `low` is at most `high`.
#![tactic(auto, unfolding(crate::specs::Clamp::clamp_t))]

ghost use Rattle.std.specs.Prelude.{◌≡◌};
ghost use Rattle.scattering.specs.Clamp as Clamp;

// The value, but at least `low` and at most `high`. A NaN stays one.
pub fn clamp_t(val: f32, low: f32, high: f32) -> f32
    ensures { result ≡ Clamp.clamp_t val low high }
{
    if val < low {
        low
    } else if val > high {
        high
    } else {
        val
    }
}

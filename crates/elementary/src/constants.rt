// The constants of the source, and the two special values, which no literal writes.
ghost use Rattle.std.specs.Prelude.{◌≡◌, false};
ghost use Rattle.std.specs.Float.Ieee as Ieee;
ghost use Rattle.elementary.specs.Constants.{pi, inv_4_pi};

// `std::f32::consts::PI`, bits 40490FDB.
pub const PI: f32 = 3.14159265358979323846264338327950288;

// `INV_4_PI` of pbrt.rs, bits 3DA2F983.
pub const INV_4_PI: f32 = 0.079_577_471_545_947_667_88;

// The constants have the bits of specs/Constants: that is the contract, and the function does
// nothing.
pub fn constants_by_bits()
    ensures { (PI ≡ pi) × (INV_4_PI ≡ inv_4_pi) }
{}

// A NaN.
#[tactic(auto, using(crate::proofs::Literals::specials))]
pub fn nan() -> f32
    ensures { result ≡ Ieee.nan }
{
    f32::NAN
}

// Positive infinity.
#[tactic(auto, using(crate::proofs::Literals::specials))]
pub fn infinity() -> f32
    ensures { result ≡ Ieee.inf false }
{
    f32::INFINITY
}

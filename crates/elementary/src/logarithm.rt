// L, the natural logarithm of an `f32` from 2 ^ -126 up to 1, by a series in `f64`.
ghost use Rattle.std.specs.Prelude.{◌≡◌, ℕ, ◌<◌};
ghost use Rattle.elementary.specs.Notation.{◌⧄◌, one64};
ghost use Rattle.elementary.specs.Logarithm as Logarithm;
ghost use Rattle.elementary.specs.Logarithm.{c31, significand, exponent};
ghost use Rattle.elementary.specs.Units.{Normalised};

use super::constants::nan;
use super::convert::narrow;
use super::normal::Normal;

// 1 + z / 3 + z^2 / 5 + .. to z^15 / 31, from the innermost term out, whose number n is computed with.
#[tactic(auto, unfolding(crate::specs::Logarithm::odds))]
fn ln_terms(z: f64) -> f64
    ensures { result ≡ Logarithm.odds 15 z (one64 ⧄ c31) }
{
    let mut h = 1.0f64 / 31.0;
    for n in (0..15u32).rev() {
        h = 1.0 / ((2 * n + 1) as f64) + z * h;
    }
    h
}

impl Normal {
    // The logarithm of a value below 1: the significand is q / 2 ^ 23, and the exponent size - 150.
    fn ln(self) -> f32
        requires { self.size < 150 }
        ensures { (a : ℕ) → Normalised a self.q self.size → result ≡ Logarithm.ln_series (significand a) (exponent a) }
    {
        let m = (self.q as f64) / 8388608.0;
        let e = -((150 - self.size) as f64);
        let s = (m - 1.0) / (m + 1.0);
        narrow(e * 0.6931471805599453 + 2.0 * s * ln_terms(s * s))
    }
}

// The natural logarithm of x from 2 ^ -126 up to 1. Elsewhere it is a NaN.
pub fn ln(x: f32) -> f32
    ensures { result ≡ Logarithm.ln x }
{
    if x >= 1.17549435e-38 {
        if x < 1.0 {
            return Normal::new(x).ln();
        }
    }
    nan()
}

// What the calls are given, as the types of the crates below.
ghost use Rattle.std.specs.Prelude.{◌≡◌};
ghost use Rattle.gauzespar.specs.Calls as Calls;

use bssrdf::Coefficients;
use scattering::Spectrum;

// The number of a channel that is none of the three.
pub const NO_CHANNEL: u32 = 100;

pub fn coefficients_of(
    sigma_a_r: f32,
    sigma_a_g: f32,
    sigma_a_b: f32,
    sigma_s_r: f32,
    sigma_s_g: f32,
    sigma_s_b: f32,
) -> Coefficients
    ensures { result ≡ Calls.coefficients_of sigma_a_r sigma_a_g sigma_a_b sigma_s_r sigma_s_g sigma_s_b }
{
    Coefficients {
        sigma_a: Spectrum::rgb(sigma_a_r, sigma_a_g, sigma_a_b),
        sigma_s: Spectrum::rgb(sigma_s_r, sigma_s_g, sigma_s_b),
    }
}

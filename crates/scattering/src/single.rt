// `beam_diffusion_ss` of bssrdf.rs: light that is scattered once. Each step of the formula is done
// for all samples before the next, so that the compiler works at several at once and no step waits
// for a root or an exponential. The lists are filled where they stand: functions that return them
// were tried, and copying them took this sum 6 % more time.
#![tactic(auto, unfolding(crate::specs::Single::ss_term))]

ghost use Rattle.std.specs.Prelude.{◌≡◌};
ghost use Rattle.scattering.specs.Single as Single;

use crate::fresnel::fresnels;
use crate::phase::phases;
use crate::samples::{N_SAMPLES, SAMPLES, SampleLogs, distances, exponentials};
use elementary::lists::{map_into, sum_by, zip_into};

// What a sample adds.
fn term(rho: f32, d: f32, cos_theta_o: f32, attenuation: f32, phase: f32, fresnel: f32) -> f32
    ensures { result ≡ Single.ss_term rho d cos_theta_o attenuation phase fresnel }
{
    rho * attenuation / (d * d) * phase * (1.0 - fresnel) * elementary::abs(cos_theta_o)
}

// The same as `beam_diffusion_ss`, by its arguments, for a caller that has the logarithms.
pub fn beam_diffusion_ss_with(
    sigma_s: f32,
    sigma_a: f32,
    g: f32,
    eta: f32,
    r: f32,
    logs: &SampleLogs,
) -> f32
    ensures { result ≡ Single.beam_diffusion_ss sigma_s sigma_a g eta r }
{
    let sigma_t = sigma_a + sigma_s;
    let rho = sigma_s / sigma_t;
    let t_crit = r * elementary::sqrt(eta * eta - 1.0);
    let mut ti = [0.0f32; N_SAMPLES];
    map_into(&logs.values, &mut ti, |l| t_crit - l / sigma_t);
    let mut d = [0.0f32; N_SAMPLES];
    distances(r, &ti, &mut d);
    let mut cos_theta_o = [0.0f32; N_SAMPLES];
    zip_into(&ti, &d, &mut cos_theta_o, |ti, d| ti / d);
    let mut attenuation = [0.0f32; N_SAMPLES];
    map_into(&d, &mut attenuation, |d| -sigma_t * (d + t_crit));
    exponentials(&mut attenuation);
    let mut phase = [0.0f32; N_SAMPLES];
    phases(&cos_theta_o, g, &mut phase);
    let mut inward = [0.0f32; N_SAMPLES];
    map_into(&cos_theta_o, &mut inward, |c| -c);
    let mut fresnel = [0.0f32; N_SAMPLES];
    fresnels(&inward, 1.0, eta, &mut fresnel);
    sum_by(N_SAMPLES, |k| {
        term(
            rho,
            d[k],
            cos_theta_o[k],
            attenuation[k],
            phase[k],
            fresnel[k],
        )
    }) / SAMPLES
}

// The light that leaves at the distance r from a beam after it is scattered once, by the
// coefficients of scattering and absorption, the phase function's g and the index of refraction:
// the Rust's arguments.
pub fn beam_diffusion_ss(sigma_s: f32, sigma_a: f32, g: f32, eta: f32, r: f32) -> f32
    ensures { result ≡ Single.beam_diffusion_ss sigma_s sigma_a g eta r }
{
    beam_diffusion_ss_with(sigma_s, sigma_a, g, eta, r, &SampleLogs::new())
}

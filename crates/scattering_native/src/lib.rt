// The sums of beam diffusion for C: oracle/scattering links them, to time them beside the Rust. C
// calls each by a name of its own, so single and multiple scattering have two functions each.
#![tactic(auto)]

ghost use Rattle.std.specs.Prelude.{◌≡◌, ℕ, length, get_or};
ghost use Rattle.std.specs.Float.{nan};
ghost use Rattle.elementary.specs.Lists.{sum_to};
ghost use Rattle.scattering.specs.Single.{beam_diffusion_ss};
ghost use Rattle.scattering.specs.Multiple.{beam_diffusion_ms};

use elementary::lists::sum_by;
use scattering::SampleLogs;

#[unsafe(no_mangle)]
pub extern "C" fn scattering_beam_diffusion_ss(
    sigma_s: f32,
    sigma_a: f32,
    g: f32,
    eta: f32,
    r: f32,
) -> f32
    ensures { result ≡ beam_diffusion_ss sigma_s sigma_a g eta r }
{
    scattering::beam_diffusion_ss(sigma_s, sigma_a, g, eta, r)
}

#[unsafe(no_mangle)]
pub extern "C" fn scattering_beam_diffusion_ms(
    sigma_s: f32,
    sigma_a: f32,
    g: f32,
    eta: f32,
    r: f32,
) -> f32
    ensures { result ≡ beam_diffusion_ms sigma_s sigma_a g eta r }
{
    scattering::beam_diffusion_ms(sigma_s, sigma_a, g, eta, r)
}

// The sum over all radii, as a row of a table asks for them: with the logarithms made once.
#[unsafe(no_mangle)]
pub extern "C" fn scattering_row_ss(
    sigma_s: f32,
    sigma_a: f32,
    g: f32,
    eta: f32,
    radii: &[f32],
) -> f32
    ensures { result ≡ sum_to (λ (i : ℕ). beam_diffusion_ss sigma_s sigma_a g eta (get_or radii.now i nan)) (length radii.now) }
{
    let logs = SampleLogs::new();
    sum_by(radii.len(), |i| {
        scattering::beam_diffusion_ss_with(sigma_s, sigma_a, g, eta, radii[i], &logs)
    })
}

#[unsafe(no_mangle)]
pub extern "C" fn scattering_row_ms(
    sigma_s: f32,
    sigma_a: f32,
    g: f32,
    eta: f32,
    radii: &[f32],
) -> f32
    ensures { result ≡ sum_to (λ (i : ℕ). beam_diffusion_ms sigma_s sigma_a g eta (get_or radii.now i nan)) (length radii.now) }
{
    let logs = SampleLogs::new();
    sum_by(radii.len(), |i| {
        scattering::beam_diffusion_ms_with(sigma_s, sigma_a, g, eta, radii[i], &logs)
    })
}

// One row of a table: its profile and CDF in parts of the lent lists, and its effective albedo.
ghost use Rattle.std.specs.Prelude.{◌≡◌, ◌+◌, ◌*◌, ◌≤◌, ◌<◌, length};
ghost use Rattle.interpolation.specs.Checks.{max_rows, max_radii};
ghost use Rattle.table.specs.Row as Row;

use crate::parameters::Record;
use elementary::PI;
use elementary::lists::map_into;
use interpolation::integral::integrate_catmull_rom;
use scattering::{SampleLogs, beam_diffusion_ms_with, beam_diffusion_ss_with};

// The entry at the radius x of the row of the albedo rho.
#[tactic(auto, unfolding(crate::specs::Row::profile_entry))]
fn profile_entry(r: Record, rho: f32, x: f32, logs: &SampleLogs) -> f32
    ensures { result ≡ Row.profile_entry r rho x }
{
    let sigma_a = 1.0 - rho;
    let ss = beam_diffusion_ss_with(rho, sigma_a, r.g, r.eta, x, logs);
    let ms = beam_diffusion_ms_with(rho, sigma_a, r.g, r.eta, x, logs);
    2.0 * PI * x * (ss + ms)
}

// The row of the albedo rho: its profile over the radii, and its CDF. Its effective albedo is
// returned. The logarithms are the same for every entry.
#[tactic(auto, unfolding(crate::specs::Row::profile_row, crate::specs::Row::cdf_row, crate::specs::Row::effective_albedo))]
fn build_parts(
    r: Record,
    rho: f32,
    radius_samples: &[f32],
    profile: &mut [f32],
    profile_cdf: &mut [f32],
) -> f32
    requires some { 1 ≤ length radius_samples.now }
    requires lengths { (length profile.old ≡ length radius_samples.now) × (length profile_cdf.old ≡ length radius_samples.now) }
    ensures albedo { result ≡ Row.effective_albedo r rho radius_samples.now }
    ensures profile { profile.new ≡ Row.profile_row r rho radius_samples.now }
    ensures cdf { profile_cdf.new ≡ Row.cdf_row r rho radius_samples.now }
{
    let logs = SampleLogs::new();
    map_into(radius_samples, profile, |x| profile_entry(r, rho, x, &logs));
    integrate_catmull_rom(radius_samples, profile, profile_cdf)
}

// Row i of the profile and of the CDF, from the albedo rho; its effective albedo is returned.
#[tactic(auto, using(crate::proofs::Cited::parts))]
pub fn build_row(
    r: Record,
    i: usize,
    rho: f32,
    radius_samples: &[f32],
    profile: &mut [f32],
    profile_cdf: &mut [f32],
) -> f32
    requires { (1 ≤ r.m) × (r.m ≤ max_radii) × (i < max_rows) × (length radius_samples.now ≡ r.m) × (i * r.m + r.m ≤ length profile.old) × (length profile_cdf.old ≡ length profile.old) }
    ensures { (result ≡ Row.effective_albedo r rho radius_samples.now)
        × (profile.new ≡ Row.put (i * r.m) (Row.profile_row r rho radius_samples.now) profile.old)
        × (profile_cdf.new ≡ Row.put (i * r.m) (Row.cdf_row r rho radius_samples.now) profile_cdf.old) }
{
    let start = i * r.m;
    let end = start + r.m;
    build_parts(
        r,
        rho,
        radius_samples,
        &mut profile[start..end],
        &mut profile_cdf[start..end],
    )
}

// The three queries: first what each writes into its output lists, and then the functions that C
// calls, with numbers and lists alone, one by one: a channel is a number there.
#![tactic(auto, using(std::proofs::lemmas::Grind::common_steps, crate::proofs::Refusals::of_draws), unfolding(crate::proofs::Opened::queries))]

ghost use Rattle.std.specs.Prelude.{◌≡◌, ◌&&◌, eqb, length};
ghost use Rattle.answers.specs.Refusal.{number_of};
ghost use Rattle.table.specs.Checks.{record_number};
ghost use Rattle.table.specs.Parameters.{record_of, lists, lists_of};
ghost use Rattle.bssrdf.specs.Radiance as Radiance;
ghost use Rattle.bssrdf.specs.Density as Density;
ghost use Rattle.bssrdf.specs.Drawing as Drawing;
ghost use Rattle.gauzespar.specs.Outputs.{Tells, output, wholes, fitted};
ghost use Rattle.gauzespar.specs.Calls as Calls;

use crate::arguments::{NO_CHANNEL, coefficients_of};
use crate::outputs::{misfit, told};
use answers::Refusal;
use bssrdf::{Coefficients, WorldRadius};
use scattering::RGBEnum;
use table::checks::check_record;
use table::{Record, Table};

fn write_sr(
    t: Table<'_>,
    c: Coefficients,
    x: WorldRadius,
    radiance: &mut [f32],
) -> Result<(), Refusal>
    ensures { let a = fitted (eqb (length radiance.old) 3) (record_number t.entry.record) (Radiance.sr t.entry.record (lists_of t.entry) c x) in
        Tells (number_of result) a × (radiance.new ≡ output (number_of result) a.floats radiance.old) }
{
    if radiance.len() != 3 {
        return Err(misfit(check_record(t.record)));
    }
    let s = bssrdf::sr(t, c, x)?;
    radiance.copy_from_slice(&<[f32; 3]>::from(s));
    Ok(())
}

fn write_pdf_sr(
    t: Table<'_>,
    ch: RGBEnum,
    c: Coefficients,
    x: WorldRadius,
    density: &mut [f32],
) -> Result<(), Refusal>
    ensures { let a = fitted (eqb (length density.old) 1) (record_number t.entry.record) (Density.pdf_sr t.entry.record (lists_of t.entry) ch c x) in
        Tells (number_of result) a × (density.new ≡ output (number_of result) a.floats density.old) }
{
    if density.len() != 1 {
        return Err(misfit(check_record(t.record)));
    }
    density[0] = bssrdf::pdf_sr(t, ch, c, x)?;
    Ok(())
}

fn write_sample_sr(
    t: Table<'_>,
    ch: RGBEnum,
    c: Coefficients,
    u: f32,
    allowance: u32,
    drawn: &mut [f32],
    rounds: &mut [u32],
) -> Result<(), Refusal>
    ensures { let a = fitted (eqb (length drawn.old) 1 && eqb (length rounds.old) 1) (record_number t.entry.record) (Drawing.sample_sr t.entry.record (lists_of t.entry) ch c u allowance) in
        Tells (number_of result) a × (drawn.new ≡ output (number_of result) a.floats drawn.old) × (wholes rounds.new ≡ output (number_of result) a.wholes (wholes rounds.old)) }
{
    if drawn.len() != 1 || rounds.len() != 1 {
        return Err(misfit(check_record(t.record)));
    }
    let sample = bssrdf::sample_sr(t, ch, c, u, allowance)?;
    drawn[0] = sample.radius;
    rounds[0] = sample.rounds;
    Ok(())
}

// The radiance that leaves at a radius, in three channels. Refusals: 1 to 6, 8, 11, 12.
#[unsafe(no_mangle)]
pub extern "C" fn gauzespar_sr(
    n: usize,
    m: usize,
    g: f32,
    eta: f32,
    rho_samples: &[f32],
    radius_samples: &[f32],
    profile: &[f32],
    rho_eff: &[f32],
    profile_cdf: &[f32],
    marks: &[u8],
    sigma_a_r: f32,
    sigma_a_g: f32,
    sigma_a_b: f32,
    sigma_s_r: f32,
    sigma_s_g: f32,
    sigma_s_b: f32,
    radius: f32,
    radiance: &mut [f32],
) -> u32
    ensures { let a = Calls.sr (record_of n m g eta) (lists rho_samples.now radius_samples.now profile.now rho_eff.now profile_cdf.now marks.now)
        (Calls.coefficients_of sigma_a_r sigma_a_g sigma_a_b sigma_s_r sigma_s_g sigma_s_b) radius (length radiance.old) in
        Tells result a × (radiance.new ≡ output result a.floats radiance.old) }
{
    let t = Table {
        record: Record { n, m, g, eta },
        rho_samples,
        radius_samples,
        profile,
        rho_eff,
        profile_cdf,
        marks,
    };
    let c = coefficients_of(
        sigma_a_r, sigma_a_g, sigma_a_b, sigma_s_r, sigma_s_g, sigma_s_b,
    );
    told(write_sr(t, c, WorldRadius(radius), radiance))
}

// The density, by area, with which a radius is drawn in one channel. Refusals: 1 to 6, 8, 11, and 100
// before them.
#[unsafe(no_mangle)]
pub extern "C" fn gauzespar_pdf_sr(
    n: usize,
    m: usize,
    g: f32,
    eta: f32,
    rho_samples: &[f32],
    radius_samples: &[f32],
    profile: &[f32],
    rho_eff: &[f32],
    profile_cdf: &[f32],
    marks: &[u8],
    channel: u32,
    sigma_a_r: f32,
    sigma_a_g: f32,
    sigma_a_b: f32,
    sigma_s_r: f32,
    sigma_s_g: f32,
    sigma_s_b: f32,
    radius: f32,
    density: &mut [f32],
) -> u32
    ensures { let a = Calls.pdf_sr (record_of n m g eta) (lists rho_samples.now radius_samples.now profile.now rho_eff.now profile_cdf.now marks.now) channel
        (Calls.coefficients_of sigma_a_r sigma_a_g sigma_a_b sigma_s_r sigma_s_g sigma_s_b) radius (length density.old) in
        Tells result a × (density.new ≡ output result a.floats density.old) }
{
    let Ok(ch) = RGBEnum::try_from(channel) else {
        return NO_CHANNEL;
    };
    let t = Table {
        record: Record { n, m, g, eta },
        rho_samples,
        radius_samples,
        profile,
        rho_eff,
        profile_cdf,
        marks,
    };
    let c = coefficients_of(
        sigma_a_r, sigma_a_g, sigma_a_b, sigma_s_r, sigma_s_g, sigma_s_b,
    );
    told(write_pdf_sr(t, ch, c, WorldRadius(radius), density))
}

// A radius drawn in one channel, with the rounds made. Refusals: 1 to 6, 8 to 11, 13, and 100 before
// them.
#[unsafe(no_mangle)]
pub extern "C" fn gauzespar_sample_sr(
    n: usize,
    m: usize,
    g: f32,
    eta: f32,
    rho_samples: &[f32],
    radius_samples: &[f32],
    profile: &[f32],
    rho_eff: &[f32],
    profile_cdf: &[f32],
    marks: &[u8],
    channel: u32,
    sigma_a_r: f32,
    sigma_a_g: f32,
    sigma_a_b: f32,
    sigma_s_r: f32,
    sigma_s_g: f32,
    sigma_s_b: f32,
    u: f32,
    allowance: u32,
    drawn: &mut [f32],
    rounds: &mut [u32],
) -> u32
    ensures { let a = Calls.sample_sr (record_of n m g eta) (lists rho_samples.now radius_samples.now profile.now rho_eff.now profile_cdf.now marks.now) channel
        (Calls.coefficients_of sigma_a_r sigma_a_g sigma_a_b sigma_s_r sigma_s_g sigma_s_b) u allowance (length drawn.old) (length rounds.old) in
        Tells result a × (drawn.new ≡ output result a.floats drawn.old) × (wholes rounds.new ≡ output result a.wholes (wholes rounds.old)) }
{
    let Ok(ch) = RGBEnum::try_from(channel) else {
        return NO_CHANNEL;
    };
    let t = Table {
        record: Record { n, m, g, eta },
        rho_samples,
        radius_samples,
        profile,
        rho_eff,
        profile_cdf,
        marks,
    };
    let c = coefficients_of(
        sigma_a_r, sigma_a_g, sigma_a_b, sigma_s_r, sigma_s_g, sigma_s_b,
    );
    told(write_sample_sr(t, ch, c, u, allowance, drawn, rounds))
}

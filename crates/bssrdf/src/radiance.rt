// The offered call `sr`.
ghost use Rattle.std.specs.Prelude.{◌≡◌, true, false, [], ℕ, ◌<◌, get_or};
ghost use Rattle.std.specs.Float.{inf};
ghost use Rattle.elementary.specs.Notation.{lit};
ghost use Rattle.table.specs.Parameters.{lists_of};
ghost use Rattle.answers.specs.Answer.{answered};
ghost use Rattle.scattering.specs.Spectrum.{rgb, times, clamp};
ghost use Rattle.scattering.specs.Exitance.{spectrum_value};
ghost use Rattle.bssrdf.specs.Coefficients.{optical};
ghost use Rattle.interpolation.specs.Weights.{four_of};
ghost use Rattle.bssrdf.specs.declared.coefficients.OpticalRadius.{OpticalRadius};
ghost use Rattle.bssrdf.specs.Checks.{check12};
ghost use Rattle.bssrdf.specs.Cells.{sr_by};
ghost use Rattle.bssrdf.specs.Radiance as Spec;

use crate::axes::{Axis, are_inside, optical_radii, radius_values};
use crate::checks::{check_nans, check_radii_of, check_rows_of};
use crate::coefficients::{Coefficients, OpticalRadius, WorldRadius};
use crate::grid::Cells;
use crate::needed::are_ready;
use answers::Refusal;
use elementary::PI;
use scattering::Spectrum;
use table::Table;

// The marginal factor of the profile cancelled.
#[tactic(auto, unfolding(crate::specs::Radiance::cancelled))]
pub fn cancel(x: OpticalRadius, v: f32) -> f32
    ensures { result ≡ Spec.cancelled x v }
{
    let r = x.mean_free_paths();
    if r == 0.0 { v } else { v / (2.0 * PI * r) }
}

// A channel in optical units: 0 where it is outside, and so has no cells.
fn channel_sr(x: OpticalRadius, cells: Option<Cells<'_>>) -> f32
    ensures { result ≡ sr_by x cells.entry }
{
    match cells {
        Some(cells) => cancel(x, cells.tensor()),
        None => 0.0,
    }
}

// The cells of the channel k, which has none where it is outside: by them it is the channel.
#[tactic(auto, unfolding(crate::specs::Axes::weights_by, crate::specs::Radiance::channel_sr))]
fn cells_of<'a>(
    profile: &'a [f32],
    m: usize,
    inside: [bool; 3],
    rho: Axis,
    radius: Axis,
    k: usize,
) -> Option<Cells<'a>>
    requires channel { k < 3 }
    requires readable { get_or inside k false ≡ true
        → Spec.Readable profile.now m (get_or rho.at k 0) (four_of (get_or rho.weights k [])) (get_or radius.at k 0) (four_of (get_or radius.weights k [])) }
    ensures { (x : OpticalRadius) → sr_by x result ≡ Spec.channel_by profile.now m x inside rho.at rho.weights radius.at radius.weights k }
{
    if !inside[k] {
        return None;
    }
    Some(Cells {
        profile,
        m,
        rho: rho.place(k),
        radius: radius.place(k),
    })
}

// The three channels in optical units. The cells of all three come first: made channel by channel they
// took `sr` 3 % longer.
fn three_channels(
    profile: &[f32],
    m: usize,
    sigma_t: Spectrum,
    x: WorldRadius,
    inside: [bool; 3],
    rho: Axis,
    radius: Axis,
) -> Spectrum
    requires { (k : ℕ) → k < 3 → get_or inside k false ≡ true
        → Spec.Readable profile.now m (get_or rho.at k 0) (four_of (get_or rho.weights k [])) (get_or radius.at k 0) (four_of (get_or radius.weights k [])) }
    ensures { result ≡ rgb (Spec.channel_by profile.now m (optical x sigma_t.r) inside rho.at rho.weights radius.at radius.weights 0)
        (Spec.channel_by profile.now m (optical x sigma_t.g) inside rho.at rho.weights radius.at radius.weights 1)
        (Spec.channel_by profile.now m (optical x sigma_t.b) inside rho.at rho.weights radius.at radius.weights 2) }
{
    let r = cells_of(profile, m, inside, rho, radius, 0);
    let g = cells_of(profile, m, inside, rho, radius, 1);
    let b = cells_of(profile, m, inside, rho, radius, 2);
    Spectrum {
        r: channel_sr(x.optical(sigma_t.r), r),
        g: channel_sr(x.optical(sigma_t.g), g),
        b: channel_sr(x.optical(sigma_t.b), b),
    }
}

// The channels in the world's units, each clamped from 0 on; 12 where one is a NaN.
#[tactic(auto, using(answers::proofs::Results::calling), unfolding(answers::specs::Refusal::number_of, answers::specs::Refusal::told, crate::specs::Radiance::sr_told))]
fn in_world(optical: Spectrum, sigma_t: Spectrum) -> Result<Spectrum, Refusal>
    ensures { Spec.sr_told result ≡ answered (check12 (times optical (times sigma_t sigma_t))) (spectrum_value (clamp (times optical (times sigma_t sigma_t)) (lit 0) (inf false))) }
{
    let world = optical * (sigma_t * sigma_t);
    check_nans(world)?;
    Ok(world.clamp(0.0, elementary::infinity()))
}

// The radiance that leaves at the world radius x from where it entered, in each channel. The lists
// are only read. Refusals: 1 to 6, 8, 11, 12.
#[tactic(auto, using(crate::proofs::ThreeChannels::sr_by_parts, crate::proofs::TwoParts::passing), unfolding(answers::specs::Refusal::number_of, answers::specs::Refusal::number, answers::specs::Refusal::told, crate::specs::Radiance::sr_told))]
pub fn sr(t: Table<'_>, c: Coefficients, x: WorldRadius) -> Result<Spectrum, Refusal>
    ensures { Spec.sr_told result ≡ Spec.sr t.entry.record (lists_of t.entry) c x }
{
    let rho_nodes = check_rows_of(t)?;
    let radius_nodes = check_radii_of(t.radius_samples, c)?;
    let sigma_t = c.sigma_t();
    let rhos = <[f32; 3]>::from(c.rho());
    let xs = optical_radii(sigma_t, x);
    let inside = are_inside(rho_nodes.list, radius_nodes.list, rhos, xs);
    let rho = Axis::new(rho_nodes, rhos);
    if !are_ready(t.marks, inside, rho) {
        return Err(Refusal::RowMissing);
    }
    let radius = Axis::new(radius_nodes, radius_values(xs));
    let optical = three_channels(t.profile, t.record.m, sigma_t, x, inside, rho, radius);
    in_world(optical, sigma_t)
}

// The offered call `pdf_sr`.
ghost use Rattle.std.specs.Prelude.{◌≡◌, Some};
ghost use Rattle.interpolation.specs.Weights.{offset_of};
ghost use Rattle.interpolation.specs.Blend.{InTable};
ghost use Rattle.table.specs.Parameters.{lists_of};
ghost use Rattle.bssrdf.specs.Density as Spec;

use crate::axes::is_inside;
use crate::checks::{check_radii_of, check_rows_of};
use crate::coefficients::{Coefficients, OpticalRadius, WorldRadius};
use crate::grid::Cells;
use crate::needed::are_marked;
use crate::radiance::cancel;
use answers::Refusal;
use interpolation::blend::Blend;
use scattering::RGBEnum;
use table::Table;

// A channel's density where it is inside.
#[tactic(auto, unfolding(crate::specs::Density::density_of, crate::specs::Density::blended_albedo))]
fn inside_density(cells: Cells<'_>, rho_eff: &[f32], sigma_t: f32, x: OpticalRadius) -> f32
    requires { InTable rho_eff.now 1 cells.rho.interval cells.rho.four }
    ensures { result ≡ Spec.density_of cells.entry.profile.now rho_eff.now cells.entry.m sigma_t x
        (Some (record { offset = offset_of cells.entry.rho.interval; four = cells.entry.rho.four }))
        (Some (record { offset = offset_of cells.entry.radius.interval; four = cells.entry.radius.four })) }
{
    let sum = cancel(x, cells.profile_sum());
    let albedos = Blend {
        table: rho_eff,
        m: 1,
        place: cells.rho,
    };
    elementary::max0(sum * sigma_t * sigma_t / albedos.interpolate(0))
}

// The density, by area, with which `sample_sr` draws the world radius x in the channel ch: 2 pi x times
// it is that of the radius itself. The lists are only read. Refusals: 1 to 6, 8, 11.
#[tactic(auto, using(crate::proofs::OneChannel::pdf_by_tests, crate::proofs::TwoParts::passing, crate::proofs::Cells::searching), unfolding(answers::specs::Refusal::number_of, answers::specs::Refusal::number, answers::specs::Refusal::told, crate::specs::Density::pdf_told, crate::specs::Axes::optical_radius))]
pub fn pdf_sr(t: Table<'_>, ch: RGBEnum, c: Coefficients, x: WorldRadius) -> Result<f32, Refusal>
    ensures { Spec.pdf_told result ≡ Spec.pdf_sr t.entry.record (lists_of t.entry) ch c x }
{
    let rho_nodes = check_rows_of(t)?;
    let total = c.sigma_t();
    let sigma_t = total[ch];
    let optical = x.optical(sigma_t);
    let albedo = c.channel_rho(ch);
    let rho = rho_nodes.place(albedo);
    let radius_nodes = check_radii_of(t.radius_samples, c)?;
    if !is_inside(rho_nodes.list, radius_nodes.list, albedo, optical) {
        return Ok(0.0);
    }
    if !are_marked(t.marks, rho) {
        return Err(Refusal::RowMissing);
    }
    let cells = Cells {
        profile: t.profile,
        m: t.record.m,
        rho,
        radius: radius_nodes.place(optical.mean_free_paths()),
    };
    Ok(inside_density(cells, t.rho_eff, sigma_t, optical))
}

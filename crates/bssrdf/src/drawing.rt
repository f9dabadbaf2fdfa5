// The offered call `sample_sr`.
ghost use Rattle.std.specs.Prelude.{◌≡◌};
ghost use Rattle.table.specs.Parameters.{lists_of};
ghost use Rattle.bssrdf.specs.Drawing as Spec;

use crate::checks::{check_draw, check_rows_of};
use crate::coefficients::Coefficients;
use crate::needed::are_marked;
use answers::Refusal;
use interpolation::blend::Blend;
use interpolation::sample::draw;
use interpolation::weights::is_within;
use scattering::RGBEnum;
use table::Table;

// A radius drawn and the rounds made. The radius is -1, as in the Rust, where sigma_t is 0 and
// nothing can be drawn.
#[derive(Clone, Copy, Debug, PartialEq)]
pub struct Drawn {
    pub radius: f32,
    pub rounds: u32,
}

// Draws a world radius in the channel ch: u picks the place, and `allowance` is the most rounds that
// may be made. The lists are only read. Refusals: 1 to 6, 8 to 11, 13.
#[tactic(auto, using(crate::proofs::OneChannel::sample_by_tests, crate::proofs::TwoParts::passing, crate::proofs::Cells::searching), unfolding(answers::specs::Refusal::number_of, answers::specs::Refusal::number, answers::specs::Refusal::told, crate::specs::Drawing::drawn_told))]
pub fn sample_sr(
    t: Table<'_>,
    ch: RGBEnum,
    c: Coefficients,
    u: f32,
    allowance: u32,
) -> Result<Drawn, Refusal>
    ensures { Spec.drawn_told result ≡ Spec.sample_sr t.entry.record (lists_of t.entry) ch c u allowance }
{
    let rho_nodes = check_rows_of(t)?;
    let total = c.sigma_t();
    let sigma_t = total[ch];
    let albedo = c.channel_rho(ch);
    let rho = rho_nodes.place(albedo);
    let radius_nodes = check_draw(t.radius_samples, c, u, allowance)?;
    if sigma_t == 0.0 {
        return Ok(Drawn {
            radius: -1.0,
            rounds: 0,
        });
    }
    if !is_within(rho_nodes.list, albedo) {
        return Ok(Drawn {
            radius: 0.0 / sigma_t,
            rounds: 0,
        });
    }
    if !are_marked(t.marks, rho) {
        return Err(Refusal::RowMissing);
    }
    let m = t.record.m;
    let values = Blend {
        table: t.profile,
        m,
        place: rho,
    };
    let cdf = Blend {
        table: t.profile_cdf,
        m,
        place: rho,
    };
    let sample = draw(radius_nodes.list, values, cdf, u, allowance)?;
    Ok(Drawn {
        radius: sample.position / sigma_t,
        rounds: sample.rounds,
    })
}

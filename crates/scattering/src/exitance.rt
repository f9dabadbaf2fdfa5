// The offered call `sw`: how the light that leaves is spread over directions.
#![tactic(auto, unfolding(crate::specs::Exitance::sw_value))]

ghost use Rattle.std.specs.Prelude.{◌≡◌};
ghost use Rattle.answers.specs.Refusal.{number_of};
ghost use Rattle.scattering.specs.Exitance as Exitance;

use crate::checks::{check_cosine, check_eta};
use crate::fresnel::fr_dielectric;
use crate::moments::fresnel_moment1;
use crate::spectrum::Spectrum;
use answers::Refusal;
use elementary::PI;

// Its two checks.
#[tactic(auto, using(answers::proofs::Results::checking), unfolding(answers::specs::Refusal::number_of, crate::specs::Exitance::sw_number))]
fn check_sw(eta: f32, cosine: f32) -> Result<(), Refusal>
    ensures { number_of result ≡ Exitance.sw_number eta cosine }
{
    check_eta(eta)?;
    check_cosine(cosine)
}

fn sw_value(eta: f32, cosine: f32) -> f32
    ensures { result ≡ Exitance.sw_value eta cosine }
{
    let c = 1.0 - 2.0 * fresnel_moment1(1.0 / eta);
    (1.0 - fr_dielectric(cosine, 1.0, eta)) / (c * PI)
}

// The Fresnel term at the cosine of a direction, for the index of refraction eta: three equal
// values. Refusals: 4, 9.
#[tactic(auto, using(answers::proofs::Results::calling), unfolding(answers::specs::Refusal::number_of, answers::specs::Refusal::told, crate::specs::Exitance::sw_told, crate::specs::Exitance::sw))]
pub fn sw(eta: f32, cosine: f32) -> Result<Spectrum, Refusal>
    ensures { Exitance.sw_told result ≡ Exitance.sw eta cosine }
{
    check_sw(eta, cosine)?;
    Ok(Spectrum::new(sw_value(eta, cosine)))
}

// The checks of the table of refusals that concern `sw` (specification, section 4.2), each a test and
// a refusal of its own.
#![tactic(auto, using(elementary::proofs::Values::testing), unfolding(answers::specs::Refusal::number, crate::specs::Checks::check4, crate::specs::Checks::check9))]

ghost use Rattle.std.specs.Prelude.{◌≡◌};
ghost use Rattle.answers.specs.Refusal.{number_of};
ghost use Rattle.scattering.specs.Checks as Checks;

use answers::{Refusal, refuse_unless};

// The least and the largest index of refraction.
pub const MIN_ETA: f32 = 1.0;

pub const MAX_ETA: f32 = 2.0;

pub fn check_eta(eta: f32) -> Result<(), Refusal>
    ensures { number_of result ≡ Checks.check4 eta }
{
    refuse_unless(MIN_ETA <= eta && eta <= MAX_ETA, Refusal::RefractiveIndex)
}

pub fn check_cosine(cosine: f32) -> Result<(), Refusal>
    ensures { number_of result ≡ Checks.check9 cosine }
{
    refuse_unless(!cosine.is_nan(), Refusal::Argument)
}

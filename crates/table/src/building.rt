// The offered call `build`.
ghost use Rattle.std.specs.Prelude.{◌≡◌};
ghost use Rattle.table.specs.Parameters.{effect, outcome_told, lists_of_mut, SameTable};
ghost use Rattle.table.specs.Building as Building;

use crate::checks::check_build;
use crate::lists::TableMut;
use crate::row::build_row;
use answers::Refusal;

// Builds row i from the nodes as they are lent: its part of the profile and of the CDF, its
// effective albedo, and its mark, which becomes 1. Every other place of the six lists is left as it
// was. Refusals: 1 to 7.
#[tactic(auto, using(crate::proofs::Cited::calls), unfolding(answers::specs::Refusal::number_of, answers::specs::Refusal::told, crate::specs::Parameters::outcome_told, crate::specs::Building::build, crate::specs::Building::built, crate::specs::TableRow::built_row, crate::specs::TableRow::replaced))]
pub fn build(t: &mut TableMut<'_>, i: usize) -> Result<(), Refusal>
    ensures effect { effect (outcome_told result) (lists_of_mut t.new) ≡ Building.build t.old.record i (lists_of_mut t.old) }
    ensures same { SameTable t.old t.new }
{
    check_build(t.table(), i)?;
    let albedo = build_row(
        t.record,
        i,
        t.rho_samples[i],
        t.radius_samples,
        t.profile,
        t.profile_cdf,
    );
    t.rho_eff[i] = albedo;
    t.marks[i] = 1;
    Ok(())
}

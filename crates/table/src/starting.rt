// The offered call `start`.
ghost use Rattle.std.specs.Prelude.{◌≡◌};
ghost use Rattle.table.specs.Parameters.{effect, outcome_told, lists_of_lent, SameLent};
ghost use Rattle.table.specs.Starting as Starting;

use crate::checks::check_start;
use crate::lists::Lent;
use crate::parameters::Record;
use answers::Refusal;
use starting_nodes::{radius_nodes, rho_nodes};

// Starts a table in the six lists, whatever they hold: the nodes of the record, and no row built.
// Refusals: 1 to 5.
#[tactic(auto, using(crate::proofs::Cited::calls), unfolding(answers::specs::Refusal::number_of, answers::specs::Refusal::told, crate::specs::Parameters::outcome_told, crate::specs::Starting::start, crate::specs::Starting::started, crate::specs::Nodes::rho_samples, crate::specs::Nodes::radius_samples))]
pub fn start(r: Record, lists: &mut Lent<'_>) -> Result<(), Refusal>
    ensures effect { effect (outcome_told result) (lists_of_lent lists.new) ≡ Starting.start r (lists_of_lent lists.old) }
    ensures same { SameLent lists.old lists.new }
{
    check_start(r, lists.lengths())?;
    rho_nodes(lists.rho_samples);
    radius_nodes(lists.radius_samples);
    lists.profile.fill(0.0);
    lists.rho_eff.fill(0.0);
    lists.profile_cdf.fill(0.0);
    lists.marks.fill(0);
    Ok(())
}

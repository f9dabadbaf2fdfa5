// The checks of the table of refusals that concern queries alone, and the checks that a query makes
// before 11 (specification, sections 4.2 and 4.3).
ghost use Rattle.std.specs.Prelude.{◌&&◌, [], ◌∷◌, ◌≡◌, ◌≤◌, length, IfOk};
ghost use Rattle.answers.specs.Checks.{first_of};
ghost use Rattle.answers.specs.Refusal.{number_of};
ghost use Rattle.elementary.specs.Notation.{◌⊕◌};
ghost use Rattle.interpolation.specs.Checks.{check6, check9, check10};
ghost use Rattle.interpolation.specs.Laws.{Holds};
ghost use Rattle.interpolation.specs.Nodes.{finite};
ghost use Rattle.table.specs.Checks.{start_number};
ghost use Rattle.table.specs.Parameters.{lists_of, lengths_of};
ghost use Rattle.bssrdf.specs.Checks as Checks;

use crate::coefficients::Coefficients;
use answers::{Refusal, refuse_unless};
use interpolation::checks::{check_allowance, check_u};
use interpolation::nodes::Nodes;
use scattering::Spectrum;
use table::Table;
use table::checks::check_start;

// Whether a channel's coefficients are numbers from 0 on and their sum is finite. Where both are from
// 0 on, so that neither is a NaN, a sum below infinity says that they are finite too.
#[tactic(auto, using(crate::proofs::FiniteSums::testing))]
fn channel_ok(sigma_a: f32, sigma_s: f32) -> bool
    ensures { result ≡ (Checks.coefficient_ok sigma_a && Checks.coefficient_ok sigma_s && finite (sigma_a ⊕ sigma_s)) }
{
    (0.0 <= sigma_a) & (0.0 <= sigma_s) & (sigma_a + sigma_s < elementary::infinity())
}

#[tactic(auto, using(crate::proofs::FiniteSums::testing), unfolding(answers::specs::Refusal::number, crate::specs::Checks::check8))]
pub fn check_coefficients(c: Coefficients) -> Result<(), Refusal>
    ensures { number_of result ≡ Checks.check8 c }
{
    let a = c.sigma_a;
    let s = c.sigma_s;
    let r = channel_ok(a.r, s.r);
    let g = channel_ok(a.g, s.g);
    let b = channel_ok(a.b, s.b);
    refuse_unless(r & g & b, Refusal::Coefficients)
}

// A test and a refusal of its own, as each check has.
#[tactic(auto, unfolding(answers::specs::Refusal::number, crate::specs::Checks::check12))]
pub fn check_nans(s: Spectrum) -> Result<(), Refusal>
    ensures { number_of result ≡ Checks.check12 s }
{
    refuse_unless(!s.has_nans(), Refusal::NotANumber)
}

// Check 6 of an axis. Its nodes are values of binary32, as those of any list are: that is a clause
// here, since the type of a list that stands in a table does not say so to a caller.
fn check_axis(nodes: &[f32]) -> Result<Nodes<'_>, Refusal>
    requires { 2 ≤ length nodes.now }
    ensures number { number_of result ≡ check6 nodes.now }
    ensures same { IfOk result (λ checked. checked.list ≡ nodes.entry) }
    ensures held { IfOk result (λ _. Holds nodes.now) }
{
    Nodes::check(nodes)
}

// The checks that a query makes before 11 come in two parts, between which it may work out its albedo
// weights: they are then at hand when the rest has passed. First 1 to 5, and 6 of the albedo nodes.
// Inlined, since a call between the two parts takes `pdf_sr` and `sample_sr` 6 ns longer.
#[inline(always)]
#[tactic(auto, using(crate::proofs::TwoParts::refusing), unfolding(answers::specs::Refusal::number_of))]
pub fn check_rows_of(t: Table<'_>) -> Result<Nodes<'_>, Refusal>
    ensures number { number_of result ≡ first_of (start_number t.entry.record (lengths_of (lists_of t.entry)) ∷ check6 t.entry.rho_samples.now ∷ []) }
    ensures same { IfOk result (λ nodes. nodes.list ≡ t.entry.rho_samples) }
    ensures held { IfOk result (λ _. Holds t.entry.rho_samples.now) }
{
    check_start(t.record, t.lengths())?;
    check_axis(t.rho_samples)
}

// Then 6 of the radius nodes, which are two or more where the first part has passed, and 8.
#[inline(always)]
#[tactic(auto, using(crate::proofs::TwoParts::refusing), unfolding(answers::specs::Refusal::number_of))]
pub fn check_radii_of(radius_samples: &[f32], c: Coefficients) -> Result<Nodes<'_>, Refusal>
    requires { 2 ≤ length radius_samples.now }
    ensures number { number_of result ≡ first_of (check6 radius_samples.now ∷ Checks.check8 c ∷ []) }
    ensures same { IfOk result (λ nodes. nodes.list ≡ radius_samples.entry) }
    ensures held { IfOk result (λ _. Holds radius_samples.now) }
{
    let nodes = check_axis(radius_samples)?;
    check_coefficients(c)?;
    Ok(nodes)
}

// The second part for `sample_sr`, with 9 and 10.
#[inline(always)]
#[tactic(auto, using(crate::proofs::TwoParts::refusing), unfolding(answers::specs::Refusal::number_of))]
pub fn check_draw(
    radius_samples: &[f32],
    c: Coefficients,
    u: f32,
    allowance: u32,
) -> Result<Nodes<'_>, Refusal>
    requires { 2 ≤ length radius_samples.now }
    ensures number { number_of result ≡ first_of (first_of (check6 radius_samples.now ∷ Checks.check8 c ∷ []) ∷ check9 u ∷ check10 allowance ∷ []) }
    ensures same { IfOk result (λ nodes. nodes.list ≡ radius_samples.entry) }
{
    let nodes = check_radii_of(radius_samples, c)?;
    check_u(u)?;
    check_allowance(allowance)?;
    Ok(nodes)
}

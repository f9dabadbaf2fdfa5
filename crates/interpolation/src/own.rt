// Weights, integration and 2D sampling on a caller's own lists. Nothing is asked of the lists or
// the numbers: a call that a check refuses gives the refusal and writes nothing.
#![tactic(auto, using(crate::proofs::Refusals::numbering, answers::proofs::Results::calling), unfolding(answers::specs::Refusal::number_of, answers::specs::Refusal::told, crate::specs::Own::weights_number, crate::specs::Own::weights_told, crate::specs::Own::weights, crate::specs::Own::integral_number, crate::specs::Own::integral_told, crate::specs::Own::integral_value, crate::specs::Own::integral, crate::specs::Own::cdf_after, crate::specs::Own::sizes_number, crate::specs::Own::sample_number, crate::specs::Own::sample_told, crate::specs::Own::sample2d, crate::specs::Checks::max_rows))]

ghost use Rattle.std.specs.Prelude.{◌≡◌, IfOk};
ghost use Rattle.answers.specs.Refusal.{number_of};
ghost use Rattle.interpolation.specs.Own as Own;
ghost use Rattle.interpolation.specs.ProvedTable.{ProvedTable};

use crate::checks::{check_allowance, check_length, check_radii, check_rows, check_u};
use crate::integral::integrate_catmull_rom;
use crate::nodes::Nodes;
use crate::sample::{Sample, sample_catmull_rom_2d};
use crate::weights::{Weights, catmull_rom_weights};
use answers::Refusal;

#[tactic(auto, using(crate::proofs::Refusals::numbering, answers::proofs::Results::checking), unfolding(answers::specs::Refusal::number_of, crate::specs::Own::weights_number))]
fn check_weights(nodes: &[f32]) -> Result<Nodes<'_>, Refusal>
    ensures number { number_of result ≡ Own.weights_number nodes.now }
    ensures same { IfOk result (λ checked. checked.list ≡ nodes.entry) }
{
    check_rows(nodes.len())?;
    Nodes::check(nodes)
}

// The weights of x among the nodes, or none outside them. Refusals: 1, 6.
pub fn weights(nodes: &[f32], x: f32) -> Result<Option<Weights>, Refusal>
    ensures { Own.weights_told result ≡ Own.weights nodes.now x }
{
    let checked = check_weights(nodes)?;
    Ok(catmull_rom_weights(checked, x))
}

#[tactic(auto, using(crate::proofs::Refusals::numbering, answers::proofs::Results::checking), unfolding(answers::specs::Refusal::number_of, crate::specs::Own::integral_number))]
fn check_integral(x: &[f32], values: &[f32], cdf: usize) -> Result<(), Refusal>
    ensures { number_of result ≡ Own.integral_number x.now values.now cdf }
{
    check_rows(x.len())?;
    check_length(values.len(), x.len())?;
    check_length(cdf, x.len())?;
    Nodes::check(x)?;
    Ok(())
}

// The integral of the spline through the values at the nodes x: its running sum up to each node
// goes to `cdf`. Refusals: 1, 5, 6.
pub fn integrate(x: &[f32], values: &[f32], cdf: &mut [f32]) -> Result<f32, Refusal>
    ensures told { Own.integral_told result ≡ Own.integral x.now values.now cdf.old }
    ensures list { cdf.new ≡ Own.cdf_after x.now values.now cdf.old }
{
    check_integral(x, values, cdf.len())?;
    Ok(integrate_catmull_rom(x, values, cdf))
}

// The product is worked out once both sizes are in range, so it does not overflow.
#[tactic(auto, using(crate::proofs::Refusals::numbering, answers::proofs::Results::checking), unfolding(answers::specs::Refusal::number_of, crate::specs::Own::sizes_number))]
fn check_sizes(n: usize, m: usize, values: usize, cdf: usize) -> Result<(), Refusal>
    ensures { number_of result ≡ Own.sizes_number n m values cdf }
{
    check_rows(n)?;
    check_radii(m)?;
    check_length(values, n * m)?;
    check_length(cdf, n * m)
}

#[tactic(auto, using(crate::proofs::Refusals::numbering, answers::proofs::Results::checking), unfolding(answers::specs::Refusal::number_of, crate::specs::Own::sample_number))]
fn check_sample<'a>(
    nodes1: &'a [f32],
    nodes2: &[f32],
    values: &[f32],
    cdf: &[f32],
    u: f32,
    allowance: u32,
) -> Result<Nodes<'a>, Refusal>
    ensures number { number_of result ≡ Own.sample_number nodes1.now nodes2.now values.now cdf.now u allowance }
    ensures same { IfOk result (λ checked. checked.list ≡ nodes1.entry) }
{
    check_sizes(nodes1.len(), nodes2.len(), values.len(), cdf.len())?;
    let checked = Nodes::check(nodes1)?;
    Nodes::check(nodes2)?;
    check_u(u)?;
    check_allowance(allowance)?;
    Ok(checked)
}

// A draw from the table of values over the two node lists, whose rows' integrals are in `cdf`:
// alpha picks the rows that are blended, u the place, in at most `allowance` rounds. None where
// alpha is outside. The lists come one by one, as in the Rust. Refusals: 1, 2, 5, 6, 9, 10, 13.
pub fn sample_2d(
    nodes1: &[f32],
    nodes2: &[f32],
    values: &[f32],
    cdf: &[f32],
    alpha: f32,
    u: f32,
    allowance: u32,
) -> Result<Option<Sample>, Refusal>
    ensures { Own.sample_told result ≡ Own.sample2d nodes1.now nodes2.now values.now cdf.now alpha u allowance }
{
    let checked = check_sample(nodes1, nodes2, values, cdf, u, allowance)?;
    sample_catmull_rom_2d(checked, nodes2, values, cdf, alpha, u, allowance)
}

// The proved values (specification, section 13.2) are the contract, line by line; the function does
// nothing.
#[tactic(auto, using(crate::proofs::Table::proved))]
pub fn proved_table()
    ensures { ProvedTable }
{}

// The checks of the table of refusals that concern starting and building, 1 to 7 (specification,
// sections 4.2 and 4.3), each a test and a refusal of its own.
#![tactic(auto, using(crate::proofs::Cited::chains), unfolding(answers::specs::Refusal::number, answers::specs::Refusal::number_of, crate::specs::Checks::check3, crate::specs::Checks::check5, crate::specs::Checks::check7, crate::specs::Checks::record_number, crate::specs::Checks::start_number, crate::specs::Checks::table_number, crate::specs::Checks::build_number))]

ghost use Rattle.std.specs.Prelude.{◌≡◌, ◌≤◌};
ghost use Rattle.answers.specs.Refusal.{number_of};
ghost use Rattle.interpolation.specs.Checks.{max_rows, max_radii};
ghost use Rattle.table.specs.Parameters.{lengths_of, lists_of};
ghost use Rattle.table.specs.Checks as Checks;

use crate::lists::Table;
use crate::parameters::{Lengths, Record};
use answers::{Refusal, refuse_unless};
use interpolation::checks::{check_radii, check_rows};
use interpolation::nodes::Nodes;
use scattering::checks::check_eta;

pub fn check_g(g: f32) -> Result<(), Refusal>
    ensures { number_of result ≡ Checks.check3 g }
{
    refuse_unless(
        Record::MIN_G < g && g < Record::MAX_G,
        Refusal::PhaseAsymmetry,
    )
}

pub fn check_lengths(r: Record, l: Lengths) -> Result<(), Refusal>
    requires { (r.n ≤ max_rows) × (r.m ≤ max_radii) }
    ensures { number_of result ≡ Checks.check5 r l }
{
    refuse_unless(l == r.lengths(), Refusal::Length)
}

pub fn check_row(r: Record, row: usize) -> Result<(), Refusal>
    ensures { number_of result ≡ Checks.check7 r row }
{
    refuse_unless(row < r.n, Refusal::RowNumber)
}

// 1 to 4
pub fn check_record(r: Record) -> Result<(), Refusal>
    ensures { number_of result ≡ Checks.record_number r }
{
    check_rows(r.n)?;
    check_radii(r.m)?;
    check_g(r.g)?;
    check_eta(r.eta)
}

// 1 to 5
pub fn check_start(r: Record, l: Lengths) -> Result<(), Refusal>
    ensures { number_of result ≡ Checks.start_number r l }
{
    check_record(r)?;
    check_lengths(r, l)
}

// 1 to 6
pub fn check_table(t: Table<'_>) -> Result<(), Refusal>
    ensures { number_of result ≡ Checks.table_number t.entry.record t.entry.rho_samples.now t.entry.radius_samples.now (lengths_of (lists_of t.entry)) }
{
    check_start(t.record, t.lengths())?;
    Nodes::check(t.rho_samples)?;
    Nodes::check(t.radius_samples)?;
    Ok(())
}

// 1 to 7
pub fn check_build(t: Table<'_>, row: usize) -> Result<(), Refusal>
    ensures { number_of result ≡ Checks.build_number t.entry.record row t.entry.rho_samples.now t.entry.radius_samples.now (lengths_of (lists_of t.entry)) }
{
    check_table(t)?;
    check_row(t.record, row)
}

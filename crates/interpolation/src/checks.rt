// The checks of the table of refusals that concern calls on a caller's own lists (specification,
// section 4.2). What they share is `refuse_unless`: each has a test and a refusal of its own.
ghost use Rattle.std.specs.Prelude.{◌≡◌};
ghost use Rattle.answers.specs.Refusal.{number_of};
ghost use Rattle.interpolation.specs.Checks as Checks;

use answers::{Refusal, refuse_unless};

// The fewest nodes of a list.
pub const MIN_NODES: usize = 2;
// The most nodes of the first list, which are the rows of a table.
pub const MAX_ROWS: usize = 128;
// The most nodes of the second list, which are its columns.
pub const MAX_RADII: usize = 64;
// The most rounds that a caller may allow.
pub const MAX_ALLOWANCE: u32 = 1000;

#[tactic(auto, unfolding(answers::specs::Refusal::number, crate::specs::Checks::check1, crate::specs::Checks::max_rows))]
pub fn check_rows(n: usize) -> Result<(), Refusal>
    ensures { number_of result ≡ Checks.check1 n }
{
    refuse_unless(MIN_NODES <= n && n <= MAX_ROWS, Refusal::Rows)
}

#[tactic(auto, unfolding(answers::specs::Refusal::number, crate::specs::Checks::check2, crate::specs::Checks::max_radii))]
pub fn check_radii(m: usize) -> Result<(), Refusal>
    ensures { number_of result ≡ Checks.check2 m }
{
    refuse_unless(MIN_NODES <= m && m <= MAX_RADII, Refusal::Radii)
}

#[tactic(auto, unfolding(answers::specs::Refusal::number, crate::specs::Checks::check5))]
pub fn check_length(given: usize, expected: usize) -> Result<(), Refusal>
    ensures { number_of result ≡ Checks.check5 given expected }
{
    refuse_unless(given == expected, Refusal::Length)
}

#[tactic(auto, unfolding(answers::specs::Refusal::number, crate::specs::Checks::check9))]
pub fn check_u(u: f32) -> Result<(), Refusal>
    ensures { number_of result ≡ Checks.check9 u }
{
    refuse_unless(0.0 <= u && u <= 1.0, Refusal::Argument)
}

#[tactic(auto, unfolding(answers::specs::Refusal::number, crate::specs::Checks::check10, crate::specs::Checks::max_allowance))]
pub fn check_allowance(allowance: u32) -> Result<(), Refusal>
    ensures { number_of result ≡ Checks.check10 allowance }
{
    refuse_unless(
        1 <= allowance && allowance <= MAX_ALLOWANCE,
        Refusal::Allowance,
    )
}

// What the calls give.
ghost use Rattle.std.specs.Prelude.{◌≡◌, [], ◌∷◌};
ghost use Rattle.answers.specs.Checks.{first_of};
ghost use Rattle.answers.specs.Refusal.{number, number_of};
ghost use Rattle.interpolation.specs.Checks.{check1, check2};

use answers::Refusal;
use interpolation::checks::{check_radii, check_rows};

// What a call returns: 0, or the number of its refusal.
#[tactic(auto, unfolding(answers::specs::Refusal::number_of))]
pub fn told(answer: Result<(), Refusal>) -> u32
    ensures { result ≡ number_of answer }
{
    match answer {
        Ok(()) => 0,
        Err(refusal) => u32::from(refusal),
    }
}

// The refusal of an output list of the wrong length: that of the checks before 5, or 5.
#[tactic(auto, using(answers::proofs::Results::checking), unfolding(answers::specs::Refusal::number, answers::specs::Refusal::number_of, answers::specs::Checks::first_of))]
pub fn misfit(before: Result<(), Refusal>) -> Refusal
    ensures { number result ≡ first_of (number_of before ∷ 5 ∷ []) }
{
    before.err().unwrap_or(Refusal::Length)
}

// 1 and 2, by the lengths of two node lists.
#[tactic(auto, using(answers::proofs::Results::checking), unfolding(answers::specs::Refusal::number_of))]
pub fn check_sizes(n: usize, m: usize) -> Result<(), Refusal>
    ensures { number_of result ≡ first_of (check1 n ∷ check2 m ∷ []) }
{
    check_rows(n)?;
    check_radii(m)
}

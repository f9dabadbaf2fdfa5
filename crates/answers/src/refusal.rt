// Why a call is refused.
ghost use Rattle.std.specs.Prelude.{◌≡◌};
ghost use Rattle.answers.specs.Checks.{unless_passed};
ghost use Rattle.answers.specs.Refusal as Spec;

use std::error::Error;
use std::fmt;

// The rows of the table of refusals (specification, section 4.2), in its order.
#[derive(Clone, Copy, Debug, PartialEq, Eq)]
pub enum Refusal {
    // The number of rows, or of nodes in the first list, is out of range.
    Rows = 1,
    // The number of radii, or of nodes in the second list, is out of range.
    Radii = 2,
    // g is out of range.
    PhaseAsymmetry = 3,
    // eta is out of range.
    RefractiveIndex = 4,
    // A list has another length.
    Length = 5,
    // A node list is not finite and strictly increasing.
    Nodes = 6,
    // There is no row of this number.
    RowNumber = 7,
    // A coefficient, or the sum of a channel's two, is no finite number from 0 on.
    Coefficients = 8,
    // u or a cosine is out of range.
    Argument = 9,
    // The allowance is out of range.
    Allowance = 10,
    // A needed row is not built.
    RowMissing = 11,
    // A channel of `sr` is a NaN.
    NotANumber = 12,
    // The allowance of rounds is used up.
    Exhausted = 13,
}

impl From<Refusal> for u32 {
    ghost from_gives = { λ r k. k ≡ Spec.number r };

    // Its number in the table.
    #[tactic(auto, unfolding(crate::specs::Refusal::number))]
    fn from(r: Refusal) -> u32 {
        r as u32
    }
}

impl fmt::Display for Refusal {
    fn fmt<W: fmt::Write>(&self, f: &mut fmt::Formatter<W>) -> fmt::Result {
        let text = match self {
            Refusal::Rows => "the number of albedos is out of range",
            Refusal::Radii => "the number of radii is out of range",
            Refusal::PhaseAsymmetry => "g is out of range",
            Refusal::RefractiveIndex => "eta is out of range",
            Refusal::Length => "a list has another length",
            Refusal::Nodes => "a node list is not finite and strictly increasing",
            Refusal::RowNumber => "there is no row of this number",
            Refusal::Coefficients => "a coefficient or a sum of two is no finite number from 0 on",
            Refusal::Argument => "u or the cosine is out of range",
            Refusal::Allowance => "the allowance is out of range",
            Refusal::RowMissing => "a needed row is not built",
            Refusal::NotANumber => "a channel is not a number",
            Refusal::Exhausted => "the allowance of rounds is used up",
        };
        f.write_str(text)
    }
}

impl Error for Refusal {}

// A check: this refusal, unless its test has passed.
#[tactic(auto, unfolding(crate::specs::Refusal::number_of))]
pub fn refuse_unless(passed: bool, refusal: Refusal) -> Result<(), Refusal>
    ensures { Spec.number_of result ≡ unless_passed (Spec.number refusal) passed }
{
    if passed { Ok(()) } else { Err(refusal) }
}

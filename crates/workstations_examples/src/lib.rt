// Worked examples of lists of calls, in a crate of their own, so that a check of the claim does not
// compute them. `specs/` has them and `proofs/` computes them.
#![tactic(auto)]

ghost use Rattle.workstations_examples.specs.Examples.{Examples};

// The examples are the contract; the function does nothing.
pub fn examples()
    ensures { Examples }
{}

// The laws of the splines, as one statement.
ghost use Rattle.interpolation.specs.Laws.{SplineLaws};

// The laws are the contract; the function does nothing.
#[tactic(auto, using(crate::proofs::Joint::joint))]
pub fn laws()
    ensures { SplineLaws }
{}

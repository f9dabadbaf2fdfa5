// The laws of queries.
ghost use Rattle.bssrdf.specs.Laws.{QueryLaws};

// What later layers may rest on is the contract; the function does nothing.
#[tactic(auto, using(crate::proofs::QueryLaws::joint))]
pub fn laws()
    ensures { QueryLaws }
{}

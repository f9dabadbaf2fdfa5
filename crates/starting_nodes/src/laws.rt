// The laws of the nodes.
ghost use Rattle.starting_nodes.specs.Laws.{NodeLaws};

// What later layers may rest on is the contract; the function does nothing.
pub fn laws()
    ensures { NodeLaws }
{}

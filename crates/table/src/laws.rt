// The laws of a table.
ghost use Rattle.table.specs.Laws.{TableLaws};

// What later layers may rest on is the contract; the function does nothing.
pub fn laws()
    ensures { TableLaws }
{}

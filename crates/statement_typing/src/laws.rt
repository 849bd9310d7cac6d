ghost use Rattle.statement_typing.specs.Laws.{LocalsAreKnown, ProofsAreTyped, StatementsAreTyped};

/// The steps of a proof without faults are steps of the program.
pub fn proofs_are_typed()
    ensures { ProofsAreTyped }
{}

/// Statements without faults are statements of the program.
pub fn statements_are_typed()
    ensures { StatementsAreTyped }
{}

/// The locals of statements without faults have types of variables of the program.
pub fn locals_are_known()
    ensures { LocalsAreKnown }
{}

ghost use Rattle.machine_expressions.specs.Laws.{ExpressionsAreRead};

/// What the grammar accounts for as an expression, the machine reads with its tree.
pub fn expressions_are_read()
    ensures { ExpressionsAreRead }
{}

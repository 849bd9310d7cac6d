ghost use Rattle.print_statements.specs.Laws.{StatementsReadBack};

/// What is printed of a statement is in the grammar, and has the same tree without places.
pub fn statements_read_back()
    ensures { StatementsReadBack }
{}

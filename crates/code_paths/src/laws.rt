ghost use Rattle.code_paths.specs.Laws.{StatementsBegin, StatementsEnd, PathsGoOn, PathsKeepVariables, StatementsKeepVariables};

/// A block from a statement on begins with it.
pub fn statements_begin()
    ensures { StatementsBegin }
{}

/// From a number on that is past the last statement, a block is empty.
pub fn statements_end()
    ensures { StatementsEnd }
{}

/// A path with one more step leads inside the block at its end.
pub fn paths_go_on()
    ensures { PathsGoOn }
{}

/// Paths lead to the same blocks where the code is over other variables.
pub fn paths_keep_variables()
    ensures { PathsKeepVariables }
{}

/// A block from a number on has the same statements where the code is over other variables.
pub fn statements_keep_variables()
    ensures { StatementsKeepVariables }
{}

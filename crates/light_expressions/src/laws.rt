ghost use Rattle.light_expressions.specs.Laws.{ExpressionsAreLightest};

/// No text of the same tree that nests no deeper than a text may adds less to the weights than what is printed lightly.
pub fn expressions_are_lightest()
    ensures { ExpressionsAreLightest }
{}

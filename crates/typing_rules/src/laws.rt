ghost use Rattle.typing_rules.specs.Expressions.{TypesAreFound};

/// An expression is found to be of a type exactly where it is well typed of that type.
pub fn types_are_found()
    ensures { TypesAreFound }
{}

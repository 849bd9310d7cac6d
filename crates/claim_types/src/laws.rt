ghost use Rattle.claim_types.specs.Laws.{TypesAreJudged};

/// A tree is well typed, of a type, exactly where that type is worked out for it.
pub fn types_are_judged()
    ensures { TypesAreJudged }
{}

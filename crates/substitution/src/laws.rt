ghost use Rattle.substitution.specs.Laws.{SubstitutionLaws};

/// Substitution keeps values and types.
pub fn substitution<A>()
    ensures { SubstitutionLaws A }
{}

ghost use Rattle.lk_terms.specs.Laws.{SubstitutionLaws, ValidityLaws};

/// Substitution keeps values and types.
pub fn substitution<A>()
    ensures { SubstitutionLaws A }
{}

/// Validity is closed under the structural rules.
pub fn validity()
    ensures { ValidityLaws }
{}

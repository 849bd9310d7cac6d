ghost use Rattle.method_legs.specs.Laws.{LegsAreWellTyped};

/// The legs of each method of a well-typed program are well typed.
pub fn legs_are_well_typed()
    ensures { LegsAreWellTyped }
{}

ghost use Rattle.leg_sequents.specs.Laws.{SequentsAreWellSorted};

/// What is to be shown along a well-typed leg is well sorted.
pub fn sequents_are_well_sorted()
    ensures { SequentsAreWellSorted }
{}

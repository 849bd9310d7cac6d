ghost use Rattle.readable_legs.specs.Laws.{WellFormedLegsAreReadable};

/// A well-formed leg can be followed over a store.
pub fn well_formed_legs_are_readable()
    ensures { WellFormedLegsAreReadable }
{}

ghost use Rattle.well_formed_legs.specs.Laws.{LegsAreWellFormed, NumbersAreByFirstAppearance};

/// The variables and records of a leg over numbers are numbered in the order in which they first appear on it.
pub fn numbers_are_by_first_appearance()
    ensures { NumbersAreByFirstAppearance }
{}

/// The legs of each method of a well-typed program are well formed.
pub fn legs_are_well_formed()
    ensures { LegsAreWellFormed }
{}

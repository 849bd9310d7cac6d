//! The law of the choice.
ghost use Rattle.verdicts.specs.Laws.{ChoiceIsByTheLegs};

/// The verdict that is chosen is that of the definition over the method's legs.
pub fn choice_is_by_the_legs()
    ensures { ChoiceIsByTheLegs }
{}

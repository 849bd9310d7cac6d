ghost use Rattle.leg_rules.specs.Laws.{LegsAreCounted};
ghost use Rattle.leg_rules.specs.LegExamples.{LegExamples};
ghost use Rattle.leg_rules.specs.SequentExamples.{SequentExamples};

/// A method has as many legs as are counted.
pub fn legs_are_counted()
    ensures { LegsAreCounted }
{}

/// Legs, computed on small methods.
pub fn legs_on_examples()
    ensures { LegExamples }
{}

/// Sequents, numbers and verdicts, computed on small legs.
pub fn sequents_on_examples()
    ensures { SequentExamples }
{}

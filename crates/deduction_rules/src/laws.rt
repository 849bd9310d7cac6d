ghost use Rattle.deduction_rules.specs.Laws.{AcceptedIsValid};

/// What an accepted proof claims outside its blocks follows from the facts.
pub fn accepted_is_valid()
    ensures { AcceptedIsValid }
{}

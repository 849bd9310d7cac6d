ghost use Rattle.instance_laws.specs.Laws.{SubstitutesAlike, ClosedByDepth, OpensStepByStep, GathersOnce, LacksInOrder};

/// Substitution, as closing has it, is that of proofs.
pub fn substitutes_alike()
    ensures { SubstitutesAlike }
{}

/// Where no bound variable is loose is told by a depth.
pub fn closed_by_depth()
    ensures { ClosedByDepth }
{}

/// A goal is opened All by All.
pub fn opens_step_by_step()
    ensures { OpensStepByStep }
{}

/// Index terms are gathered one by one.
pub fn gathers_once()
    ensures { GathersOnce }
{}

/// Instances are looked at in order.
pub fn lacks_in_order()
    ensures { LacksInOrder }
{}

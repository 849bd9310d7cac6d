//! The laws of the steps.
ghost use Rattle.case_steps.specs.Laws.{CasesUnfold, StepsAreLighter, WeightSuffices};

/// What a claim is taken apart into is claims that weigh less.
pub fn steps_are_lighter()
    ensures { StepsAreLighter }
{}

/// Taken apart more often than it weighs, a claim has the cases that it has.
pub fn weight_suffices()
    ensures { WeightSuffices }
{}

/// The cases of a claim are those of what it is taken apart into.
pub fn cases_unfold()
    ensures { CasesUnfold }
{}

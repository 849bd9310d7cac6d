ghost use Rattle.run_texts.specs.Examples.{TextExamples};
ghost use Rattle.run_texts.specs.Laws.{FailuresAreTold};

/// Only of a run that has failed a failure is told.
pub fn failures_are_told()
    ensures { FailuresAreTold }
{}

/// The texts of small values and runs.
pub fn texts_of_examples()
    ensures { TextExamples }
{}

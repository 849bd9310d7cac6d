ghost use Rattle.run_stops.specs.Laws.{StopsKeepFailures, VisitsFall};
ghost use Rattle.run_stops.specs.Examples.{StopExamples};

/// An expression that does not stop does not fail, and one that stops at a failure fails there.
pub fn stops_keep_failures()
    ensures { StopsKeepFailures }
{}

/// No claim leaves more visits than it was given.
pub fn visits_fall()
    ensures { VisitsFall }
{}

/// Where small claims and expressions stop, by example.
pub fn stops_on_examples()
    ensures { StopExamples }
{}

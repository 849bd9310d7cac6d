ghost use Rattle.stopped_runs.specs.Examples.{StoppedRunExamples};
ghost use Rattle.stopped_runs.specs.Laws.{SafeMethodsDoNotFail, StopsKeepRuns, TurnsInParts};

/// What a run has reached that did not stop, the run without stops has reached too.
pub fn stops_keep_runs()
    ensures { StopsKeepRuns }
{}

/// Turns may be given in parts.
pub fn turns_in_parts()
    ensures { TurnsInParts }
{}

/// No run of a safe method fails under stops.
pub fn safe_methods_do_not_fail()
    ensures { SafeMethodsDoNotFail }
{}

/// The definitions, computed on small programs.
pub fn examples()
    ensures { StoppedRunExamples }
{}

ghost use Rattle.run_rules.specs.Examples.{RunExamples};
ghost use Rattle.run_rules.specs.Laws.{TurnsInParts};

/// Turns may be given in parts.
pub fn turns_in_parts()
    ensures { TurnsInParts }
{}

/// The definitions, computed on small programs.
pub fn examples()
    ensures { RunExamples }
{}

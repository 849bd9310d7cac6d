ghost use Rattle.step_checks.specs.Laws.{StepsAreTested};

/// Steps pass exactly where they are well typed and well formed.
pub fn steps_are_tested()
    ensures { StepsAreTested }
{}

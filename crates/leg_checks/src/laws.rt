ghost use Rattle.leg_checks.specs.Laws.{LegsAreTested};

/// A leg passes exactly where it is well formed.
pub fn legs_are_tested()
    ensures { LegsAreTested }
{}

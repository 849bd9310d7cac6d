ghost use Rattle.claim_limits.specs.Laws.{LimitsAreTested};

/// The test passes exactly where the claim is no higher than that and no bound variable of it is loose.
pub fn limits_are_tested()
    ensures { LimitsAreTested }
{}

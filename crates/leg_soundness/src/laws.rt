ghost use Rattle.leg_soundness.specs.Laws.{MetDemandsSuffice};

/// An expression does not fail where its demands hold.
pub fn met_demands_suffice()
    ensures { MetDemandsSuffice }
{}

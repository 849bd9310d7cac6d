ghost use Rattle.leg_appearances.specs.Laws.{AppearancesAreTested};

/// All variables and records of a leg are seen, one after the other, exactly where they are numbered by first appearance.
pub fn appearances_are_tested()
    ensures { AppearancesAreTested }
{}

ghost use Rattle.verdict_laws.specs.Laws.{VerifiedByRulesPasses};

/// The legs of a method pass that is verified by the rules of closing and of deduction.
pub fn verified_by_rules_passes()
    ensures { VerifiedByRulesPasses }
{}

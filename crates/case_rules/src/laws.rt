//! The laws of cases.
ghost use Rattle.case_rules.specs.Laws.{CasesKeepValidity, TrueClaimsHaveACase};

/// Where a claim is true, some case of it holds.
pub fn true_claims_have_a_case()
    ensures { TrueClaimsHaveACase }
{}

/// A sequent is valid where none of its cases can hold.
pub fn cases_keep_validity()
    ensures { CasesKeepValidity }
{}

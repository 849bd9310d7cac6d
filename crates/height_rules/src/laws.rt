ghost use Rattle.height_rules.specs.Laws.{LowDeclsHaveNoFault, WholeNumberedProjectsAreTyped, WholeProjectsAreTyped, NoFaultWhereTypedAndLow};

/// A declaration has no fault of height exactly where its expressions and its proofs are not too high.
pub fn low_decls_have_no_fault()
    ensures { LowDeclsHaveNoFault }
{}

/// Where no file of a project has a fault of any kind, its typed program is well typed.
pub fn whole_projects_are_typed()
    ensures { WholeProjectsAreTyped }
{}

/// Where no file of a project has a fault of any kind, its program is well typed over numbers.
pub fn whole_numbered_projects_are_typed()
    ensures { WholeNumberedProjectsAreTyped }
{}

/// No file of a project has a fault of any kind exactly where the project is well typed and nothing in it is too high.
pub fn no_fault_where_typed_and_low()
    ensures { NoFaultWhereTypedAndLow }
{}

ghost use Rattle.project_rules.specs.Constants.{ConstantTypesAreFound};
ghost use Rattle.project_rules.specs.Projects.{NoFaultWhereTyped};

/// A constant is found to be of a type exactly where it is well typed of that type.
pub fn constant_types_are_found()
    ensures { ConstantTypesAreFound }
{}

/// No file of a project has a fault exactly where the project is well typed.
pub fn no_fault_where_typed()
    ensures { NoFaultWhereTyped }
{}

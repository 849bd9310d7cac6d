ghost use Rattle.statement_rules.specs.Statements.{FaultlessWhereTyped};

/// Statements have no fault exactly where they are well typed.
pub fn faultless_where_typed()
    ensures { FaultlessWhereTyped }
{}

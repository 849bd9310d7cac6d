ghost use Rattle.std.specs.Prelude.{◌≡◌, OnOk, map};
ghost use Rattle.slang_tree.specs.ExprTree.{expr_tree, exprs_of};
ghost use Rattle.slang_tree.specs.StmtTree as tree;
ghost use Rattle.type_rules.specs.Meanings.{Scope};
ghost use Rattle.type_rules.specs.Statements as rule;
ghost use Rattle.type_faults.specs.FirstFault.{with_first};
ghost use Rattle.name_scopes.specs.Fits.{Fits};

use crate::NoMemory;
use crate::calling::called_alone;
use crate::targets::target;
use claim_judging::against_optional;
use expression_forms::Context;
use expression_judging::judged_each;
use name_scopes::NameScope;
use right_sides::judged_right;
use slang_tree::{Expr, Name};
use std::alloc::Global;
use type_faults::FirstFault;

/// Tells what is wrong with an assignment.
pub fn assignment(
    value: &Expr,
    alloc: Global,
    scope: &mut NameScope,
    told: &mut FirstFault,
    name: &Name,
) -> Result<(), NoMemory>
    ensures told { OnOk result ((at : Scope) → Fits scope.old at
        → told.new.found ≡ with_first told.old.found (rule.stmt_faults at (tree.assignment name.now (expr_tree value.now)))) }
    ensures scope { OnOk result (scope.new ≡ scope.old) }
{
    let ty = target(scope, told, name);
    let found = judged_right(value, alloc, scope, told)?;
    against_optional(told, ty, found);
    Ok(())
}

/// Tells what is wrong with a call that stands alone.
pub fn call(
    arguments: &[Expr],
    alloc: Global,
    scope: &mut NameScope,
    told: &mut FirstFault,
    name: &Name,
) -> Result<(), NoMemory>
    ensures told { OnOk result ((at : Scope) → Fits scope.old at
        → told.new.found ≡ with_first told.old.found (rule.stmt_faults at (tree.call name.now (exprs_of (map expr_tree arguments.now))))) }
    ensures scope { OnOk result (scope.new ≡ scope.old) }
{
    let founds = judged_each(arguments, alloc, scope, told, Context::Program)?;
    called_alone(scope, told, name, founds.as_slice());
    Ok(())
}

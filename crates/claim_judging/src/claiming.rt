ghost use Rattle.std.specs.Prelude.{◌≡◌, OnOk, map};
ghost use Rattle.slang_values.specs.Value.{truth_type};
ghost use Rattle.slang_tree.specs.ExprTree.{expr_tree};
ghost use Rattle.type_rules.specs.Judged.{faults_against};
ghost use Rattle.type_rules.specs.Meanings.{Scope};
ghost use Rattle.type_rules.specs.Expressions as rule;
ghost use Rattle.type_rules.specs.Statements.{claims_faults};
ghost use Rattle.type_faults.specs.FirstFault.{with_first};
ghost use Rattle.name_scopes.specs.Fits.{Fits};
ghost use Rattle.expression_forms.specs.Context.{context_seen};

use crate::NoMemory;
use crate::wanted::against;
use expression_forms::Context;
use expression_judging::judged;
use name_scopes::NameScope;
use slang_tree::Expr;
use std::alloc::Global;
use text_types::TextType;
use type_faults::FirstFault;

/// Tells what is wrong with a claim, which is to be of type B.
pub fn claim(
    expr: &Expr,
    alloc: Global,
    scope: &mut NameScope,
    told: &mut FirstFault,
    context: Context,
) -> Result<(), NoMemory>
    ensures told { OnOk result ((at : Scope) → Fits scope.old at
        → told.new.found ≡ with_first told.old.found (faults_against truth_type (rule.judged at (context_seen context) (expr_tree expr.now)))) }
    ensures scope { OnOk result (scope.new ≡ scope.old) }
{
    let found = judged(expr, alloc, scope, told, context)?;
    against(told, TextType::B, found);
    Ok(())
}

/// Tells what is wrong with claims.
pub fn claims(
    exprs: &[Expr],
    alloc: Global,
    scope: &mut NameScope,
    told: &mut FirstFault,
    context: Context,
) -> Result<(), NoMemory>
    ensures told { OnOk result ((at : Scope) → Fits scope.old at
        → told.new.found ≡ with_first told.old.found (claims_faults at (context_seen context) (map expr_tree exprs.now))) }
    ensures scope { OnOk result (scope.new ≡ scope.old) }
{
    for expr in exprs {
        claim(expr, alloc, scope, told, context)?;
    }
    Ok(())
}

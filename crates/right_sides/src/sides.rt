ghost use Rattle.std.specs.Prelude.{◌≡◌, IfOk, OnOk, false, map, true};
ghost use Rattle.slang_tree.specs.ExprTree.{application, expr_tree, exprs_of};
ghost use Rattle.type_rules.specs.Meanings.{Scope};
ghost use Rattle.type_rules.specs.Expressions as rule;
ghost use Rattle.text_types.specs.Found.{IsJudged};
ghost use Rattle.name_scopes.specs.Fits.{Fits};
ghost use Rattle.right_sides.specs.Called.{calls_method, is_method};

use crate::NoMemory;
use crate::called::{called, calls_method};
use expression_forms::Context;
use expression_judging::{judged, judged_each};
use name_scopes::NameScope;
use slang_tree::{Expr, Place};
use std::alloc::Global;
use text_types::Found;
use type_faults::FirstFault;

/// A call of the method that the head names, with its arguments.
fn judged_call(
    alloc: Global,
    scope: &mut NameScope,
    told: &mut FirstFault,
    place: Place,
    head: &Expr,
    arguments: &[Expr],
) -> Result<Found, NoMemory>
    ensures judged { IfOk result (λ found. (at : Scope) → Fits scope.old at → is_method (rule.callee at (expr_tree head.now)) ≡ true
        → IsJudged told.old.found told.new.found found (rule.judged_right at (application place (expr_tree head.now) (exprs_of (map expr_tree arguments.now))))) }
    ensures scope { OnOk result (scope.new ≡ scope.old) }
{
    let founds = judged_each(arguments, alloc, scope, told, Context::Program)?;
    Ok(called(scope, told, place, head, founds.as_slice()))
}

/// What is found at a right side that is a call of a method.
fn judged_if_call(
    expr: &Expr,
    alloc: Global,
    scope: &mut NameScope,
    told: &mut FirstFault,
) -> Result<Found, NoMemory>
    ensures judged { IfOk result (λ found. (at : Scope) → Fits scope.old at → calls_method at (expr_tree expr.now) ≡ true
        → IsJudged told.old.found told.new.found found (rule.judged_right at (expr_tree expr.now))) }
    ensures scope { OnOk result (scope.new ≡ scope.old) }
{
    match expr {
        Expr::Apply(place, head, arguments) => {
            judged_call(alloc, scope, told, *place, head.get(), arguments.as_slice())
        }
        _ => judged_elsewhere(expr, alloc, scope, told),
    }
}

/// What is found at a right side that is no call of a method.
fn judged_elsewhere(
    expr: &Expr,
    alloc: Global,
    scope: &mut NameScope,
    told: &mut FirstFault,
) -> Result<Found, NoMemory>
    ensures judged { IfOk result (λ found. (at : Scope) → Fits scope.old at → calls_method at (expr_tree expr.now) ≡ false
        → IsJudged told.old.found told.new.found found (rule.judged_right at (expr_tree expr.now))) }
    ensures scope { OnOk result (scope.new ≡ scope.old) }
{
    judged(expr, alloc, scope, told, Context::Program)
}

/// What is found at the right side of a `val`, a `var` or an assignment.
pub fn judged_right(
    expr: &Expr,
    alloc: Global,
    scope: &mut NameScope,
    told: &mut FirstFault,
) -> Result<Found, NoMemory>
    ensures judged { IfOk result (λ found. (at : Scope) → Fits scope.old at
        → IsJudged told.old.found told.new.found found (rule.judged_right at (expr_tree expr.now))) }
    ensures scope { OnOk result (scope.new ≡ scope.old) }
{
    if calls_method(scope, expr) {
        judged_if_call(expr, alloc, scope, told)
    } else {
        judged_elsewhere(expr, alloc, scope, told)
    }
}

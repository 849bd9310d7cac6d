ghost use Rattle.std.specs.Prelude.{◌≡◌, IfOk, OnOk, [], map};
ghost use Rattle.std.specs.Option.{option_map};
ghost use Rattle.slang_tree.specs.TypeTree.{type_tree};
ghost use Rattle.slang_tree.specs.ExprTree.{expr_tree, exprs_of};
ghost use Rattle.lk_claims.specs.Claim.{value_type};
ghost use Rattle.type_rules.specs.Meanings.{Scope};
ghost use Rattle.type_rules.specs.Judged as rule;
ghost use Rattle.type_rules.specs.TypeNames.{judged_element};
ghost use Rattle.type_rules.specs.Expressions.{judged, judged_each, written_elements};
ghost use Rattle.typed_texts.specs.Claims as typed;
ghost use Rattle.text_types.specs.TextType.{text_value};
ghost use Rattle.name_scopes.specs.Fits.{Fits};
ghost use Rattle.expression_forms.specs.Context.{context_seen};
ghost use Rattle.typed_names.specs.Fields.{HasFields};

use crate::NoMemory;
use expression_forms::Context;
use expression_judging::judged;
use lk_claims::Ty;
use lk_programs::RecordTy;
use name_scopes::NameScope;
use slang_tree::{Expr, TypeName};
use slang_values::Unary;
use sqlite_items::at;
use std::alloc::Global;
use text_types::TextType;
use type_faults::FirstFault;
use type_names::element_of;
use typed_names::{element_ty, selector, ty_of};

/// The type of an expression, which is `Unit` where it has none.
pub fn known_type(
    expr: &Expr,
    alloc: Global,
    scope: &mut NameScope,
    context: Context,
) -> Result<TextType, NoMemory>
    ensures known { IfOk result (λ ty. (at : Scope) → Fits scope.old at
        → text_value ty ≡ rule.known_type (judged at (context_seen context) (expr_tree expr.now))) }
    ensures scope { OnOk result (scope.new ≡ scope.old) }
{
    let mut told = FirstFault::none();
    let found = judged(expr, alloc, scope, &mut told, context)?;
    Ok(found.known())
}

/// What a name selects from an expression: a field of a record, else the size.
pub fn selected(
    head: &Expr,
    alloc: Global,
    scope: &mut NameScope,
    context: Context,
    records: &[RecordTy],
    name: &str,
) -> Result<Unary, NoMemory>
    ensures selected { IfOk result (λ op. (at : Scope) → Fits scope.old at → HasFields records.now at
        → op ≡ typed.selector at (rule.known_type (judged at (context_seen context) (expr_tree head.now))) name.now) }
    ensures scope { OnOk result (scope.new ≡ scope.old) }
{
    let ty = known_type(head, alloc, scope, context)?;
    selector(records, ty, name)
}

/// The type of elements that is written in front of them, which is `Unit` where it has a fault.
pub fn front_ty(scope: &NameScope, ty: &TypeName) -> Ty
    ensures { (at : Scope) → Fits scope.now at → value_type result ≡ rule.known_type (judged_element at.names (type_tree ty.now)) }
{
    let mut told = FirstFault::none();
    match element_of(scope, &mut told, ty) {
        None => Ty::Unit,
        Some(element) => element_ty(element),
    }
}

/// The type of elements of which none is written in front: that of the first.
fn first_ty(
    elements: &[Expr],
    alloc: Global,
    scope: &mut NameScope,
    context: Context,
) -> Result<Ty, NoMemory>
    ensures known { IfOk result (λ ty. (at : Scope) → Fits scope.old at
        → value_type ty ≡ typed.type_of_elements [] (judged_each at (context_seen context) (exprs_of (map expr_tree elements.now)))) }
    ensures scope { OnOk result (scope.new ≡ scope.old) }
{
    match at(elements, 0) {
        None => Ok(Ty::Unit),
        Some(first) => ty_of(alloc, known_type(first, alloc, scope, context)?),
    }
}

/// The type of the elements of a sequence: it is written, or that of the first.
pub fn elements_ty(
    ty: &Option<TypeName>,
    elements: &[Expr],
    alloc: Global,
    scope: &mut NameScope,
    context: Context,
) -> Result<Ty, NoMemory>
    ensures known { IfOk result (λ made. (at : Scope) → Fits scope.old at
        → value_type made ≡ typed.type_of_elements (written_elements at (option_map type_tree ty.now))
        (judged_each at (context_seen context) (exprs_of (map expr_tree elements.now)))) }
    ensures scope { OnOk result (scope.new ≡ scope.old) }
{
    match ty {
        None => first_ty(elements, alloc, scope, context),
        Some(ty) => Ok(front_ty(scope, ty)),
    }
}

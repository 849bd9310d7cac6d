ghost use Rattle.std.specs.Prelude.{◌≡◌, map, IfOk, OnOk};
ghost use Rattle.std.specs.Option.{option_map};
ghost use Rattle.program_trees.specs.Operators.{connective};
ghost use Rattle.slang_tree.specs.TypeTree.{type_tree};
ghost use Rattle.slang_tree.specs.ExprTree.{expr_tree, exprs_of};
ghost use Rattle.type_rules.specs.Meanings.{Scope, with_bound};
ghost use Rattle.type_rules.specs.Expressions as rule;
ghost use Rattle.text_types.specs.Found.{AreJudged, IsJudged};
ghost use Rattle.name_scopes.specs.Fits.{Fits};
ghost use Rattle.expression_forms.specs.Context.{context_seen};

use crate::NoMemory;
use crate::callee::{Kind, kind_of, nested};
use expression_forms::{
    Context, binary, elements, entry_value, field, listed, named, new_number, old_value, prefix,
    quantified, quantified_indices, read, record, result_word, update,
};
use name_scopes::NameScope;
use slang_tree::{Expr, Name, Operator, Place, TypeName};
use sqlite_items::Items;
use std::alloc::Global;
use text_types::{Found, TextType};
use type_faults::FirstFault;
use type_names::{element_of, variable_type};

/// `Res`, with the type beside it, if there is one.
fn result_found(
    scope: &NameScope,
    told: &mut FirstFault,
    context: Context,
    place: Place,
    ty: &Option<TypeName>,
) -> Found
    ensures { (at : Scope) → Fits scope.now at → IsJudged told.old.found told.new.found result
        (rule.judged_result_word (context_seen context) place (rule.written_types at (option_map type_tree ty.now))) }
{
    match ty {
        None => result_word(told, context, place, &[]),
        Some(ty) => {
            let found = variable_type(scope, told, ty);
            result_word(told, context, place, &[found])
        }
    }
}

/// What is found at an expression.
#[cycle(judged)]
#[tactic(auto, using(slang_tree::proofs::Lines::expr_lines, crate::proofs::Sizes::smaller_lines))]
pub fn judged(
    expr: &Expr,
    alloc: Global,
    scope: &mut NameScope,
    told: &mut FirstFault,
    context: Context,
) -> Result<Found, NoMemory>
    ensures judged { IfOk result (λ found. (at : Scope) → Fits scope.old at
        → IsJudged told.old.found told.new.found found (rule.judged at (context_seen context) (expr_tree expr.now))) }
    ensures scope { OnOk result (scope.new ≡ scope.old) }
{
    match expr {
        Expr::Number(place, _) => Ok(Found::well(*place, TextType::Z)),
        Expr::True(place) | Expr::False(place) => Ok(Found::well(*place, TextType::B)),
        Expr::Name(name) => Ok(named(scope, told, name)),
        Expr::Res(place, ty) => Ok(result_found(scope, told, context, *place, ty)),
        Expr::In(place, name) => Ok(entry_value(scope, told, context, *place, name)),
        Expr::Old(place, name) => Ok(old_value(scope, told, context, *place, name)),
        Expr::Minus(place, operand) => {
            let operand = judged(operand.get(), alloc, scope, told, context)?;
            Ok(prefix(told, *place, TextType::Z, operand))
        }
        Expr::Not(place, operand) => {
            let operand = judged(operand.get(), alloc, scope, told, context)?;
            Ok(prefix(told, *place, TextType::B, operand))
        }
        Expr::Binary(place, operator, left, right) => {
            judged_binary(
                left.get(),
                right.get(),
                alloc,
                scope,
                told,
                context,
                *place,
                *operator,
            )
        }
        Expr::Apply(place, head, arguments) => {
            judged_application(
                head.get(),
                arguments.as_slice(),
                alloc,
                scope,
                told,
                context,
                *place,
            )
        }
        Expr::Update(place, head, index, element) => {
            judged_update(
                head.get(),
                index.get(),
                element.get(),
                alloc,
                scope,
                told,
                context,
                *place,
            )
        }
        Expr::Field(place, head, name) => {
            let head = judged(head.get(), alloc, scope, told, context)?;
            Ok(field(scope, told, *place, head, name))
        }
        Expr::Sequence(place, ty, elements) => {
            judged_sequence(elements.as_slice(), alloc, scope, told, context, *place, ty)
        }
        Expr::Quantified(place, _, low, high, name, body) => judged_quantified(
            low.get(),
            high.get(),
            body.get(),
            alloc,
            scope,
            told,
            context,
            *place,
            name,
        ),
        Expr::QuantifiedIndices(place, _, head, name, body) => {
            judged_indices(
                head.get(),
                body.get(),
                alloc,
                scope,
                told,
                context,
                *place,
                name,
            )
        }
    }
}

/// An operator between two operands.
#[cycle(judged)]
fn judged_binary(
    left: &Expr,
    right: &Expr,
    alloc: Global,
    scope: &mut NameScope,
    told: &mut FirstFault,
    context: Context,
    place: Place,
    operator: Operator,
) -> Result<Found, NoMemory>
    ensures judged { IfOk result (λ found. (at : Scope) → Fits scope.old at → IsJudged told.old.found told.new.found found
        (rule.judged_binary place (connective operator) (rule.judged at (context_seen context) (expr_tree left.now))
        (rule.judged at (context_seen context) (expr_tree right.now)))) }
    ensures scope { OnOk result (scope.new ≡ scope.old) }
{
    let left = judged(left, alloc, scope, told, context)?;
    let right = judged(right, alloc, scope, told, context)?;
    Ok(binary(told, place, operator, left, right))
}

/// A sequence with another element at an index.
#[cycle(judged)]
fn judged_update(
    head: &Expr,
    index: &Expr,
    element: &Expr,
    alloc: Global,
    scope: &mut NameScope,
    told: &mut FirstFault,
    context: Context,
    place: Place,
) -> Result<Found, NoMemory>
    ensures judged { IfOk result (λ found. (at : Scope) → Fits scope.old at → IsJudged told.old.found told.new.found found
        (rule.judged_update place (rule.judged at (context_seen context) (expr_tree head.now)) (rule.judged at (context_seen context) (expr_tree index.now))
        (rule.judged at (context_seen context) (expr_tree element.now)))) }
    ensures scope { OnOk result (scope.new ≡ scope.old) }
{
    let head = judged(head, alloc, scope, told, context)?;
    let index = judged(index, alloc, scope, told, context)?;
    let element = judged(element, alloc, scope, told, context)?;
    Ok(update(told, place, head, index, element))
}

/// A head that is applied to arguments.
#[cycle(judged)]
fn judged_application(
    head: &Expr,
    arguments: &[Expr],
    alloc: Global,
    scope: &mut NameScope,
    told: &mut FirstFault,
    context: Context,
    place: Place,
) -> Result<Found, NoMemory>
    ensures judged { IfOk result (λ found. (at : Scope) → Fits scope.old at → IsJudged told.old.found told.new.found found
        (rule.judged_application at (context_seen context) place (rule.callee at (expr_tree head.now)) (rule.judged at (context_seen context) (expr_tree head.now))
        (rule.judged_each at (context_seen context) (exprs_of (map expr_tree arguments.now))))) }
    ensures scope { OnOk result (scope.new ≡ scope.old) }
{
    match kind_of(scope, head) {
        Kind::Value => {
            let found = judged(head, alloc, scope, told, context)?;
            let founds = judged_each(arguments, alloc, scope, told, context)?;
            Ok(read(told, place, found, founds.as_slice()))
        }
        Kind::Record(number) => {
            let founds = judged_each(arguments, alloc, scope, told, context)?;
            Ok(record(scope, told, place, number, founds.as_slice()))
        }
        Kind::Method => {
            let founds = judged_each(arguments, alloc, scope, told, context)?;
            Ok(nested(scope, told, context, place, head, founds.as_slice()))
        }
    }
}

/// A sequence of elements.
#[cycle(judged)]
fn judged_sequence(
    parts: &[Expr],
    alloc: Global,
    scope: &mut NameScope,
    told: &mut FirstFault,
    context: Context,
    place: Place,
    ty: &Option<TypeName>,
) -> Result<Found, NoMemory>
    ensures judged { IfOk result (λ found. (at : Scope) → Fits scope.old at → IsJudged told.old.found told.new.found found
        (rule.judged_listed place (rule.written_elements at (option_map type_tree ty.now))
        (rule.judged_each at (context_seen context) (exprs_of (map expr_tree parts.now))))) }
    ensures scope { OnOk result (scope.new ≡ scope.old) }
{
    match ty {
        None => {
            let founds = judged_each(parts, alloc, scope, told, context)?;
            Ok(elements(told, place, founds.as_slice()))
        }
        Some(ty) => {
            let front = element_of(scope, told, ty);
            let founds = judged_each(parts, alloc, scope, told, context)?;
            Ok(listed(told, place, front, founds.as_slice()))
        }
    }
}

/// A quantifier over a range.
#[cycle(judged)]
fn judged_quantified(
    low: &Expr,
    high: &Expr,
    body: &Expr,
    alloc: Global,
    scope: &mut NameScope,
    told: &mut FirstFault,
    context: Context,
    place: Place,
    name: &Name,
) -> Result<Found, NoMemory>
    ensures judged { IfOk result (λ found. (at : Scope) → Fits scope.old at → IsJudged told.old.found told.new.found found
        (rule.judged_quantified (context_seen context) place (rule.judged at (context_seen context) (expr_tree low.now))
        (rule.judged at (context_seen context) (expr_tree high.now)) (rule.judged_new at name.now)
        (rule.judged (with_bound at name.now.text) (context_seen context) (expr_tree body.now)))) }
    ensures scope { OnOk result (scope.new ≡ scope.old) }
{
    let low = judged(low, alloc, scope, told, context)?;
    let high = judged(high, alloc, scope, told, context)?;
    let declared = new_number(scope, told, name);
    let body = judged_under(body, alloc, scope, told, context, name)?;
    Ok(quantified(told, context, place, low, high, declared, body))
}

/// A quantifier over the indices of a sequence.
#[cycle(judged)]
fn judged_indices(
    head: &Expr,
    body: &Expr,
    alloc: Global,
    scope: &mut NameScope,
    told: &mut FirstFault,
    context: Context,
    place: Place,
    name: &Name,
) -> Result<Found, NoMemory>
    ensures judged { IfOk result (λ found. (at : Scope) → Fits scope.old at → IsJudged told.old.found told.new.found found
        (rule.judged_quantified_indices (context_seen context) place (rule.judged at (context_seen context) (expr_tree head.now)) (rule.judged_new at name.now)
        (rule.judged (with_bound at name.now.text) (context_seen context) (expr_tree body.now)))) }
    ensures scope { OnOk result (scope.new ≡ scope.old) }
{
    let head = judged(head, alloc, scope, told, context)?;
    let declared = new_number(scope, told, name);
    let body = judged_under(body, alloc, scope, told, context, name)?;
    Ok(quantified_indices(told, context, place, head, declared, body))
}

/// The body of a quantifier, in which a name is bound.
#[cycle(judged)]
fn judged_under(
    body: &Expr,
    alloc: Global,
    scope: &mut NameScope,
    told: &mut FirstFault,
    context: Context,
    name: &Name,
) -> Result<Found, NoMemory>
    ensures judged { IfOk result (λ found. (at : Scope) → Fits scope.old at
        → IsJudged told.old.found told.new.found found (rule.judged (with_bound at name.now.text) (context_seen context) (expr_tree body.now))) }
    ensures scope { OnOk result (scope.new ≡ scope.old) }
{
    let names = scope.names.len();
    scope.bind(alloc, name.text.as_str())?;
    let found = judged(body, alloc, scope, told, context)?;
    scope.unbind(names);
    Ok(found)
}

/// What is found at each of some expressions.
#[cycle(judged)]
#[tactic(auto, using(crate::proofs::Sizes::size_lines))]
pub fn judged_each(
    exprs: &[Expr],
    alloc: Global,
    scope: &mut NameScope,
    told: &mut FirstFault,
    context: Context,
) -> Result<Items<Found>, NoMemory>
    ensures judged { IfOk result (λ founds. (at : Scope) → Fits scope.old at → AreJudged told.old.found told.new.found founds
        (rule.judged_each at (context_seen context) (exprs_of (map expr_tree exprs.now)))) }
    ensures scope { OnOk result (scope.new ≡ scope.old) }
{
    let mut founds = Items::new(alloc);
    for expr in exprs {
        let found = judged(expr, alloc, scope, told, context)?;
        founds.push(found)?;
    }
    Ok(founds)
}

ghost use Rattle.std.specs.Prelude.{◌≡◌, map, IfOk, OnOk};
ghost use Rattle.slang_tree.specs.ExprTree.{expr_tree};
ghost use Rattle.type_rules.specs.Meanings.{Scope, with_bound};
ghost use Rattle.typed_texts.specs.Claims.{claim_of_tree};
ghost use Rattle.expression_forms.specs.Context.{context_seen};
ghost use Rattle.claim_making.specs.Made.{AreClaims, IsClaim};

use crate::NoMemory;
use crate::forms::{
    application, connection, prefixed, quantification, selection, sequence, updated,
};
use crate::naming::{entry_named, named, old_named, result_claim};
use expression_forms::Context;
use lk_claims::Claim;
use lk_programs::RecordTy;
use name_scopes::NameScope;
use slang_tree::{Expr, Name};
use slang_values::Unary;
use sqlite_items::Items;
use std::alloc::Global;
use typed_names::Numbering;
use typed_parts::{elements_ty, head_of, selected};

/// The claim that an expression stands for.
#[cycle(claims)]
#[tactic(auto, using(slang_tree::proofs::Lines::expr_lines, expression_judging::proofs::Sizes::smaller_lines))]
pub fn made_claim(
    expr: &Expr,
    alloc: Global,
    scope: &mut NameScope,
    records: &[RecordTy],
    numbers: Numbering,
    context: Context,
) -> Result<Claim, NoMemory>
    ensures claim { IfOk result (IsClaim records.now numbers scope.old (λ at. claim_of_tree at (context_seen context) (expr_tree expr.now))) }
    ensures scope { OnOk result (scope.new ≡ scope.old) }
{
    match expr {
        Expr::Number(_, z) => Ok(Claim::Lit(*z)),
        Expr::True(_) => Ok(Claim::True),
        Expr::False(_) => Ok(Claim::False),
        Expr::Name(name) => named(scope, numbers, name.text.as_str()),
        Expr::Res(_, _) => result_claim(numbers),
        Expr::In(_, name) => entry_named(scope, numbers, name.text.as_str()),
        Expr::Old(_, name) => old_named(scope, numbers, name.text.as_str()),
        Expr::Minus(_, operand) => {
            let operand = made_claim(operand.get(), alloc, scope, records, numbers, context);
            prefixed(alloc, Unary::Neg, operand)
        }
        Expr::Not(_, operand) => {
            let operand = made_claim(operand.get(), alloc, scope, records, numbers, context);
            prefixed(alloc, Unary::Not, operand)
        }
        Expr::Binary(_, operator, left, right) => {
            let left = made_claim(left.get(), alloc, scope, records, numbers, context);
            let right = made_claim(right.get(), alloc, scope, records, numbers, context);
            connection(alloc, *operator, left, right)
        }
        Expr::Apply(_, head, arguments) => {
            let kind = head_of(scope, head.get());
            let head = made_claim(head.get(), alloc, scope, records, numbers, context);
            let arguments = made_claims(
                arguments.as_slice(),
                alloc,
                scope,
                records,
                numbers,
                context,
            );
            application(alloc, kind, head, arguments)
        }
        Expr::Update(_, head, index, element) => {
            let head = made_claim(head.get(), alloc, scope, records, numbers, context);
            let index = made_claim(index.get(), alloc, scope, records, numbers, context);
            let element = made_claim(element.get(), alloc, scope, records, numbers, context);
            updated(alloc, head, index, element)
        }
        Expr::Field(_, head, name) => {
            let op = selected(
                head.get(),
                alloc,
                scope,
                context,
                records,
                name.text.as_str(),
            );
            let head = made_claim(head.get(), alloc, scope, records, numbers, context);
            selection(alloc, op, head)
        }
        Expr::Sequence(_, ty, elements) => {
            let ty = elements_ty(ty, elements.as_slice(), alloc, scope, context);
            let elements = made_claims(
                elements.as_slice(),
                alloc,
                scope,
                records,
                numbers,
                context,
            );
            sequence(ty, elements)
        }
        Expr::Quantified(_, quantifier, low, high, name, body) => {
            let low = made_claim(low.get(), alloc, scope, records, numbers, context);
            let high = made_claim(high.get(), alloc, scope, records, numbers, context);
            let body = made_under(body.get(), alloc, scope, records, numbers, context, name);
            quantification(alloc, *quantifier, low, high, body)
        }
        Expr::QuantifiedIndices(_, quantifier, head, name, body) => {
            let head = made_claim(head.get(), alloc, scope, records, numbers, context);
            let size = prefixed(alloc, Unary::Size, head);
            let body = made_under(body.get(), alloc, scope, records, numbers, context, name);
            quantification(alloc, *quantifier, Ok(Claim::Lit(0)), size, body)
        }
    }
}

/// The claim under a quantifier, which binds a name.
#[cycle(claims)]
fn made_under(
    body: &Expr,
    alloc: Global,
    scope: &mut NameScope,
    records: &[RecordTy],
    numbers: Numbering,
    context: Context,
    name: &Name,
) -> Result<Claim, NoMemory>
    ensures claim { IfOk result (IsClaim records.now numbers scope.old (λ at. claim_of_tree (with_bound at name.now.text) (context_seen context) (expr_tree body.now))) }
    ensures scope { OnOk result (scope.new ≡ scope.old) }
{
    let names = scope.names.len();
    scope.bind(alloc, name.text.as_str())?;
    let claim = made_claim(body, alloc, scope, records, numbers, context);
    scope.unbind(names);
    claim
}

/// The claims that expressions stand for.
#[cycle(claims)]
#[tactic(auto, using(expression_judging::proofs::Sizes::size_lines))]
pub fn made_claims(
    exprs: &[Expr],
    alloc: Global,
    scope: &mut NameScope,
    records: &[RecordTy],
    numbers: Numbering,
    context: Context,
) -> Result<Items<Claim>, NoMemory>
    ensures claims { IfOk result (AreClaims records.now numbers scope.old (context_seen context) exprs.now) }
    ensures scope { OnOk result (scope.new ≡ scope.old) }
{
    let mut claims = Items::new(alloc);
    for expr in exprs {
        claims.push(made_claim(expr, alloc, scope, records, numbers, context)?)?;
    }
    Ok(claims)
}

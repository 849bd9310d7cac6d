ghost use Rattle.std.specs.Prelude.{◌≡◌, map};
ghost use Rattle.slang_values.specs.Tree.{listed, quantified, record_of, sequence_of, update};
ghost use Rattle.slang_values.specs.Value.{is_known};
ghost use Rattle.lk_claims.specs.Claim.{claim_tree, claim_trees, value_type};
ghost use Rattle.claim_types.specs.Judged.{all_judged, each_judged, judged};
ghost use Rattle.claim_types.specs.Views.{records_of, scope_names, told};

use crate::forms::{between, has_type, of_unary, type_where, with_element};
use crate::scope::Scope;
use crate::view::TypeView;
use lk_claims::{Claim, Shape, Ty};
use slang_values::Quantifier;
use sqlite_items::Items;

/// The type of a claim, where it is well typed.
#[cycle(claims)]
pub fn type_of<'a>(
    records: &'a [Items<Ty>],
    scope: Scope<'a>,
    claim: &'a Claim,
) -> Option<TypeView<'a>>
    ensures { told result ≡ judged (records_of records.now) (scope_names scope.entry) (claim_tree claim.now) }
{
    match claim.shape() {
        Shape::Literal(_) => Some(TypeView::Number),
        Shape::Truth(_) => Some(TypeView::Truth),
        Shape::Bound(_) => Some(TypeView::Number),
        Shape::Variable(n) => scope.variable(n),
        Shape::OldVariable(n) => scope.old_variable(n),
        Shape::LetSymbol(label) => scope.let_symbol(label),
        Shape::Unary(op, a) => of_unary(records, op, type_of(records, scope, a)),
        Shape::Binary(op, a, b) => between(
            op,
            type_of(records, scope, a),
            type_of(records, scope, b),
        ),
        Shape::Update(a, i, x) => of_update(records, scope, a, i, x),
        Shape::Quantified(q, low, high, body) => of_quantified(records, scope, q, low, high, body),
        Shape::Sequence(element, parts) => of_sequence(records, scope, element, parts),
        Shape::Record(number, parts) => of_record(records, scope, number, parts),
    }
}

#[cycle(claims)]
fn of_update<'a>(
    records: &'a [Items<Ty>],
    scope: Scope<'a>,
    a: &'a Claim,
    i: &'a Claim,
    x: &'a Claim,
) -> Option<TypeView<'a>>
    ensures { told result ≡ judged (records_of records.now) (scope_names scope.entry) (update (claim_tree a.now) (claim_tree i.now) (claim_tree x.now)) }
{
    let has_number = has_type(type_of(records, scope, i), TypeView::Number);
    let sequence = type_of(records, scope, a);
    with_element(has_number, sequence, type_of(records, scope, x))
}

#[cycle(claims)]
fn of_quantified<'a>(
    records: &'a [Items<Ty>],
    scope: Scope<'a>,
    quantifier: Quantifier,
    low: &'a Claim,
    high: &'a Claim,
    body: &'a Claim,
) -> Option<TypeView<'a>>
    ensures { told result ≡ judged (records_of records.now) (scope_names scope.entry) (quantified quantifier (claim_tree low.now) (claim_tree high.now) (claim_tree body.now)) }
{
    let low_fits = has_type(type_of(records, scope, low), TypeView::Number);
    let high_fits = has_type(type_of(records, scope, high), TypeView::Number);
    let body_fits = has_type(type_of(records, scope, body), TypeView::Truth);
    type_where(low_fits && high_fits && body_fits, TypeView::Truth)
}

/// Whether the records that a type names are there.
#[tactic(auto, using(lk_claims::proofs::Types::type_lines))]
fn is_there(records: &[Items<Ty>], ty: &Ty) -> bool
    ensures { result ≡ is_known (records_of records.now) (value_type ty.now) }
{
    match ty {
        Ty::Unit => true,
        Ty::Z => true,
        Ty::B => true,
        Ty::Seq(element) => is_there(records, element.get()),
        Ty::Rec(number) => (*number as usize) < records.len(),
    }
}

#[cycle(claims)]
fn of_sequence<'a>(
    records: &'a [Items<Ty>],
    scope: Scope<'a>,
    element: &'a Ty,
    parts: &'a [Claim],
) -> Option<TypeView<'a>>
    ensures { told result ≡ judged (records_of records.now) (scope_names scope.entry) (listed (sequence_of (value_type element.now)) (claim_trees parts.now)) }
{
    let is_well = is_there(records, element) && have_type(records, scope, parts, element);
    type_where(is_well, TypeView::Sequence(element))
}

#[cycle(claims)]
#[tactic(auto, using(lk_claims::proofs::Sizes::deepest_lines))]
fn have_type<'a>(records: &'a [Items<Ty>], scope: Scope<'a>, parts: &'a [Claim], ty: &'a Ty) -> bool
    ensures { result ≡ each_judged (records_of records.now) (scope_names scope.entry) (claim_trees parts.now) (value_type ty.now) }
{
    for part in parts {
        let view = type_of(records, scope, part);
        if !has_type(view, TypeView::new(ty)) {
            return false;
        }
    }
    true
}

#[cycle(claims)]
fn of_record<'a>(
    records: &'a [Items<Ty>],
    scope: Scope<'a>,
    number: u32,
    parts: &'a [Claim],
) -> Option<TypeView<'a>>
    ensures { told result ≡ judged (records_of records.now) (scope_names scope.entry) (listed (record_of number) (claim_trees parts.now)) }
{
    match records.get(number as usize) {
        Some(types) => {
            let is_well = have_types(records, scope, parts, types.as_slice());
            type_where(is_well, TypeView::Record(number))
        }
        None => None,
    }
}

#[cycle(claims)]
#[tactic(auto, using(lk_claims::proofs::Sizes::deepest_lines))]
fn have_types<'a>(
    records: &'a [Items<Ty>],
    scope: Scope<'a>,
    parts: &'a [Claim],
    types: &'a [Ty],
) -> bool
    ensures { result ≡ all_judged (records_of records.now) (scope_names scope.entry) (claim_trees parts.now) (map value_type types.now) }
{
    if parts.len() != types.len() {
        return false;
    }
    for index in 0..parts.len() {
        let view = type_of(records, scope, &parts[index]);
        if !has_type(view, TypeView::new(&types[index])) {
            return false;
        }
    }
    true
}

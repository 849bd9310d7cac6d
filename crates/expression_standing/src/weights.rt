ghost use Rattle.std.specs.Prelude.{◌≡◌, ◌≤◌, Bool, true, min, nat_eq, nat_le};
ghost use Rattle.std.specs.Option.{option_map};
ghost use Rattle.slang_tree.specs.TypeTree.{type_tree};
ghost use Rattle.slang_grammar.specs.Operators.{prefix_level, whole_level};
ghost use Rattle.slang_grammar.specs.Expressions.{level, joins};
ghost use Rattle.print_expressions.specs.Operators.{row_of};
ghost use Rattle.print_expressions.specs.Accounts.{is_side, is_operand};
ghost use Rattle.print_expressions.specs.Accounts as accounts;
ghost use Rattle.print_expressions.specs.Hefts as spec;
ghost use Rattle.expression_standing.specs.Account.{account_of, accounts_of};
ghost use Rattle.expression_standing.specs.Hefts.{IsCapped};

use crate::heft::Heft;
use crate::hefts::{around, binary, followed, headed, named, nothing, one, pair, placed};
use crate::standing::{stands_as_head, stands_as_operand, stands_behind_prefix};
use slang_grammar::Side;
use slang_tree::{Expr, Operator, TypeName};

/// What a type adds.
#[tactic(auto, using(slang_tree::proofs::Lines::type_lines))]
fn type_heft(ty: &TypeName) -> Heft
    ensures { IsCapped result (spec.type_heft (accounts.type_account (type_tree ty.now))) }
{
    match ty {
        TypeName::Z(_) => nothing(),
        TypeName::B(_) => nothing(),
        TypeName::Unit(_) => nothing(),
        TypeName::Seq(_, element) => around(type_heft(element.get()).peak),
        TypeName::Named(_) => nothing(),
    }
}

/// What the type of elements adds, where there is one.
fn element_heft(ty: &Option<TypeName>) -> Heft
    ensures { IsCapped result (spec.element_heft (option_map accounts.element_account (option_map type_tree ty.now))) }
{
    match ty {
        None => nothing(),
        Some(ty) => around(type_heft(ty).peak),
    }
}

/// What an expression adds where it is printed lightly.
#[cycle(weighing)]
#[tactic(auto, using(slang_tree::proofs::Lines::expr_lines, crate::proofs::Sizes::smaller_lines))]
pub fn heft_of(expr: &Expr) -> Heft
    ensures { IsCapped result (spec.heft (account_of true expr.now)) }
{
    match expr {
        Expr::Number(..) => nothing(),
        Expr::True(_) => nothing(),
        Expr::False(_) => nothing(),
        Expr::Name(_) => nothing(),
        Expr::Res(_, ty) => element_heft(ty),
        Expr::In(..) => named(),
        Expr::Old(..) => named(),
        Expr::Minus(_, operand) => prefixed_heft(operand.get()),
        Expr::Not(_, operand) => prefixed_heft(operand.get()),
        Expr::Binary(_, operator, left, right) => {
            binary_heft(left.get(), right.get(), *operator)
        }
        Expr::Apply(_, head, arguments) => application_heft(head.get(), arguments.as_slice()),
        Expr::Update(_, head, index, element) => {
            update_heft(head.get(), index.get(), element.get())
        }
        Expr::Field(_, head, _) => field_heft(head.get()),
        Expr::Sequence(_, ty, elements) => sequence_heft(elements.as_slice(), ty),
        Expr::Quantified(_, _, low, high, _, body) => {
            quantified_heft(low.get(), high.get(), body.get())
        }
        Expr::QuantifiedIndices(_, _, head, _, body) => indices_heft(head.get(), body.get()),
    }
}

/// What a prefix with its operand adds.
#[cycle(weighing)]
fn prefixed_heft(operand: &Expr) -> Heft
    ensures { IsCapped result (spec.followed spec.one (spec.heft (accounts.as_prefixed (account_of true operand.now)))) }
{
    let own = placed(stands_behind_prefix(operand), heft_of(operand));
    followed(one(), own)
}

/// What two operands with an operator add.
#[cycle(weighing)]
fn binary_heft(left: &Expr, right: &Expr, operator: Operator) -> Heft
    ensures { IsCapped result (spec.heft (accounts.binary_account true (row_of operator) (account_of true left.now) (account_of true right.now))) }
{
    let own = heft_of(left);
    let next = heft_of(right);
    binary(
        stands_as_operand(left, Side::Left, operator),
        stands_as_operand(right, Side::Right, operator),
        own,
        next,
    )
}

/// What a head with its arguments adds.
#[cycle(weighing)]
fn application_heft(head: &Expr, arguments: &[Expr]) -> Heft
    ensures { IsCapped result (spec.heft (accounts.application_account true (account_of true head.now) (accounts_of true arguments.now))) }
{
    let own = heft_of(head);
    let next = around(peak_of(arguments));
    headed(stands_as_head(head), own, next)
}

/// What a sequence with another element adds.
#[cycle(weighing)]
fn update_heft(head: &Expr, index: &Expr, element: &Expr) -> Heft
    ensures { IsCapped result (spec.heft (accounts.update_account true (account_of true head.now) (account_of true index.now) (account_of true element.now))) }
{
    let own = heft_of(head);
    let inside = pair(heft_of(index), heft_of(element));
    headed(stands_as_head(head), own, around(inside.peak))
}

/// What a field adds.
#[cycle(weighing)]
fn field_heft(head: &Expr) -> Heft
    ensures { IsCapped result (spec.followed (spec.heft (accounts.head_before true (account_of true head.now) spec.one)) spec.one) }
{
    headed(stands_as_head(head), heft_of(head), one())
}

/// What the elements of a sequence with their type add.
#[cycle(weighing)]
fn sequence_heft(elements: &[Expr], ty: &Option<TypeName>) -> Heft
    ensures { IsCapped result (spec.followed (spec.element_heft (option_map accounts.element_account (option_map type_tree ty.now)))
        (spec.around (spec.peak_of (accounts_of true elements.now)))) }
{
    followed(element_heft(ty), around(peak_of(elements)))
}

/// What a quantifier over a range adds.
#[cycle(weighing)]
fn quantified_heft(low: &Expr, high: &Expr, body: &Expr) -> Heft
    ensures { IsCapped result (spec.followed (spec.around
        (spec.followed (spec.heft (accounts.first_before true (account_of true low.now) (account_of true high.now))) (spec.heft (account_of true high.now))).peak)
        (spec.around (spec.heft (account_of true body.now)).peak)) }
{
    let range = pair(heft_of(low), heft_of(high));
    let inner = heft_of(body);
    followed(around(range.peak), around(inner.peak))
}

/// What a quantifier over the indices of a sequence adds.
#[cycle(weighing)]
fn indices_heft(head: &Expr, body: &Expr) -> Heft
    ensures { IsCapped result (spec.followed (spec.around (spec.followed (spec.heft (accounts.as_head (account_of true head.now))) spec.one).peak)
        (spec.around (spec.heft (account_of true body.now)).peak)) }
{
    let range = followed(placed(stands_as_head(head), heft_of(head)), one());
    let inner = heft_of(body);
    followed(around(range.peak), around(inner.peak))
}

/// The most that one of these expressions adds.
#[cycle(weighing)]
#[tactic(auto, using(crate::proofs::Sizes::size_lines))]
pub fn peak_of(exprs: &[Expr]) -> u16
    ensures within { result ≤ 201 }
    ensures peak { result ≡ min (spec.peak_of (accounts_of true exprs.now)) spec.heavy }
{
    let mut most = 0;
    for expr in exprs {
        most = heft_of(expr).peak.max(most);
    }
    most
}

ghost use Rattle.std.specs.Prelude.{◌≡◌, map, nat_le};
ghost use Rattle.slang_tree.specs.ExprTree.{expr_tree, exprs_of};
ghost use Rattle.text_heights.specs.Heights.{text_height, greatest_height};
ghost use Rattle.type_faults.specs.FirstFault.{with_first};
ghost use Rattle.height_rules.specs.Faults.{expr_too_high, exprs_too_high, claims_too_high};

use crate::limits::{HEIGHT_LIMIT, too_high};
use crate::places::place_of;
use slang_tree::Expr;
use type_faults::FirstFault;

/// Whether an expression is not higher than a limit.
#[cycle(within)]
#[tactic(auto, using(slang_tree::proofs::Lines::expr_lines))]
fn is_within(expr: &Expr, limit: u32) -> bool
    ensures { result ≡ nat_le (text_height (expr_tree expr.now)) limit }
{
    if limit == 0 {
        return false;
    }
    let inner = limit - 1;
    match expr {
        Expr::Number(..) => true,
        Expr::True(_) => true,
        Expr::False(_) => true,
        Expr::Name(_) => true,
        Expr::Res(..) => true,
        Expr::In(..) => true,
        Expr::Old(..) => true,
        Expr::Minus(_, operand) => is_within(operand.get(), inner),
        Expr::Not(_, operand) => is_within(operand.get(), inner),
        Expr::Binary(_, _, left, right) => {
            is_within(left.get(), inner) && is_within(right.get(), inner)
        }
        Expr::Apply(_, head, arguments) => {
            is_within(head.get(), inner) && are_within(arguments.as_slice(), inner)
        }
        Expr::Update(_, head, index, element) => {
            is_within(head.get(), inner)
                && is_within(index.get(), inner)
                && is_within(element.get(), inner)
        }
        Expr::Field(_, head, _) => is_within(head.get(), inner),
        Expr::Sequence(_, _, elements) => are_within(elements.as_slice(), inner),
        Expr::Quantified(_, _, low, high, _, body) => {
            is_within(low.get(), inner)
                && is_within(high.get(), inner)
                && is_within(body.get(), inner)
        }
        Expr::QuantifiedIndices(_, _, head, _, body) => {
            is_within(head.get(), inner) && is_within(body.get(), inner)
        }
    }
}

/// Whether no expression of several is higher than a limit.
#[cycle(within)]
fn are_within(exprs: &[Expr], limit: u32) -> bool
    ensures { result ≡ nat_le (greatest_height (exprs_of (map expr_tree exprs.now))) limit }
{
    for expr in exprs {
        if !is_within(expr, limit) {
            return false;
        }
    }
    true
}

/// Tells where an expression is too high.
pub fn expression_height(told: &mut FirstFault, expr: &Expr)
    ensures { told.new.found ≡ with_first told.old.found (expr_too_high (expr_tree expr.now)) }
{
    let holds = is_within(expr, HEIGHT_LIMIT);
    told.tell_unless(holds, too_high(place_of(expr)));
}

/// Tells where some expressions are too high.
pub fn expression_heights(told: &mut FirstFault, exprs: &[Expr])
    ensures { told.new.found ≡ with_first told.old.found (exprs_too_high (exprs_of (map expr_tree exprs.now))) }
{
    for expr in exprs {
        expression_height(told, expr);
    }
}

/// Tells where some claims are too high.
pub fn claim_heights(told: &mut FirstFault, claims: &[Expr])
    ensures { told.new.found ≡ with_first told.old.found (claims_too_high (map expr_tree claims.now)) }
{
    for claim in claims {
        expression_height(told, claim);
    }
}

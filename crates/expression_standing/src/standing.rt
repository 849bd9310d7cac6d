ghost use Rattle.std.specs.Prelude.{◌≡◌, ◌≤◌, Bool, true, min, nat_eq, nat_le};
ghost use Rattle.std.specs.Option.{option_map};
ghost use Rattle.slang_tree.specs.TypeTree.{type_tree};
ghost use Rattle.slang_grammar.specs.Operators.{prefix_level, whole_level};
ghost use Rattle.slang_grammar.specs.Expressions.{level, joins};
ghost use Rattle.print_expressions.specs.Operators.{row_of};
ghost use Rattle.print_expressions.specs.Accounts.{is_side, is_operand};
ghost use Rattle.print_expressions.specs.Accounts as accounts;
ghost use Rattle.print_expressions.specs.Hefts as spec;
ghost use Rattle.expression_standing.specs.Account.{account_of, accounts_of};
ghost use Rattle.expression_standing.specs.Hefts.{IsCapped};

use slang_grammar::Side;
use slang_tree::{Expr, Operator};
use token_printing::operator_row;

/// How tightly an expression holds together as it is printed.
#[tactic(auto, using(slang_tree::proofs::Lines::expr_lines))]
fn level_of(expr: &Expr) -> u8
    ensures { (light : Bool) → result ≡ level (account_of light expr.now) }
{
    match expr {
        Expr::Minus(..) => 9,
        Expr::Not(..) => 9,
        Expr::Binary(_, operator, _, _) => operator_row(*operator).level,
        Expr::Number(..) => 10,
        Expr::True(_) => 10,
        Expr::False(_) => 10,
        Expr::Name(_) => 10,
        Expr::Res(..) => 10,
        Expr::In(..) => 10,
        Expr::Old(..) => 10,
        Expr::Apply(..) => 10,
        Expr::Update(..) => 10,
        Expr::Field(..) => 10,
        Expr::Sequence(..) => 10,
        Expr::Quantified(..) => 10,
        Expr::QuantifiedIndices(..) => 10,
    }
}

/// The side to which a chain of its level joins.
#[tactic(auto, using(slang_tree::proofs::Lines::expr_lines))]
fn joins_of(expr: &Expr) -> Option<Side>
    ensures { (light : Bool) → result ≡ joins (account_of light expr.now) }
{
    match expr {
        Expr::Binary(_, operator, _, _) => Some(operator_row(*operator).joins),
        Expr::Minus(..) => None,
        Expr::Not(..) => None,
        Expr::Number(..) => None,
        Expr::True(_) => None,
        Expr::False(_) => None,
        Expr::Name(_) => None,
        Expr::Res(..) => None,
        Expr::In(..) => None,
        Expr::Old(..) => None,
        Expr::Apply(..) => None,
        Expr::Update(..) => None,
        Expr::Field(..) => None,
        Expr::Sequence(..) => None,
        Expr::Quantified(..) => None,
        Expr::QuantifiedIndices(..) => None,
    }
}

/// Whether this is that side.
fn is_side(side: Side, joins: Option<Side>) -> bool
    ensures { result ≡ is_side side joins }
{
    match joins {
        None => false,
        Some(other) => other == side,
    }
}

/// Whether an expression is an operand on a side of an operator without brackets.
pub(crate) fn stands_as_operand(expr: &Expr, side: Side, operator: Operator) -> bool
    ensures { (light : Bool) → result ≡ is_operand side (row_of operator) (account_of light expr.now) }
{
    let row = operator_row(operator);
    let level = level_of(expr);
    let own = is_side(side, Some(row.joins));
    let inner = is_side(side, joins_of(expr));
    row.level < level || (level == row.level && (own && inner))
}

/// Whether it stands behind a prefix without brackets.
pub fn stands_behind_prefix(expr: &Expr) -> bool
    ensures { (light : Bool) → result ≡ nat_le prefix_level (level (account_of light expr.now)) }
{
    level_of(expr) >= 9
}

/// Whether it stands in front of arguments or of a dot without brackets.
pub fn stands_as_head(expr: &Expr) -> bool
    ensures { (light : Bool) → result ≡ nat_eq (level (account_of light expr.now)) whole_level }
{
    level_of(expr) == 10
}

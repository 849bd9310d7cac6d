ghost use Rattle.std.specs.Prelude.{◌≡◌, ◌≤◌, Bool, true, min, nat_eq, nat_le};
ghost use Rattle.std.specs.Option.{option_map};
ghost use Rattle.slang_tree.specs.TypeTree.{type_tree};
ghost use Rattle.slang_grammar.specs.Operators.{prefix_level, whole_level};
ghost use Rattle.slang_grammar.specs.Expressions.{level, joins};
ghost use Rattle.print_expressions.specs.Operators.{row_of};
ghost use Rattle.print_expressions.specs.Accounts.{is_side, is_operand};
ghost use Rattle.print_expressions.specs.Accounts as accounts;
ghost use Rattle.print_expressions.specs.Hefts as spec;
ghost use Rattle.expression_standing.specs.Account.{account_of, accounts_of};
ghost use Rattle.expression_standing.specs.Hefts.{IsCapped};

use crate::hefts::{around, first_stays, head_stays, left_stays, one, pair, right_stays};
use crate::standing::{stands_as_head, stands_as_operand};
use crate::weights::{heft_of, peak_of};
use slang_grammar::Side;
use slang_tree::{Expr, Operator};

/// Whether the left one of two operands stands without brackets.
pub fn left_stands(left: &Expr, right: &Expr, operator: Operator, light: bool) -> bool
    ensures { result ≡ accounts.left_stays light (row_of operator) (account_of light left.now) (account_of light right.now) }
{
    let may = stands_as_operand(left, Side::Left, operator);
    if light {
        left_stays(
            may,
            stands_as_operand(right, Side::Right, operator),
            heft_of(left),
            heft_of(right),
        )
    } else {
        may
    }
}

/// Whether the right one does.
pub fn right_stands(left: &Expr, right: &Expr, operator: Operator, light: bool) -> bool
    ensures { result ≡ accounts.right_stays light (row_of operator) (account_of light left.now) (account_of light right.now) }
{
    let may = stands_as_operand(right, Side::Right, operator);
    if light {
        right_stays(
            stands_as_operand(left, Side::Left, operator),
            may,
            heft_of(left),
            heft_of(right),
        )
    } else {
        may
    }
}

/// Whether a head stands without brackets in front of arguments.
pub fn stands_before_arguments(head: &Expr, arguments: &[Expr], light: bool) -> bool
    ensures { result ≡ accounts.head_stays light (account_of light head.now) (spec.around (spec.peak_of (accounts_of light arguments.now))) }
{
    let may = stands_as_head(head);
    if light {
        head_stays(may, heft_of(head), around(peak_of(arguments)))
    } else {
        may
    }
}

/// Whether a head stands without brackets in front of an index and another element there.
pub fn stands_before_element(head: &Expr, index: &Expr, element: &Expr, light: bool) -> bool
    ensures { result ≡ accounts.head_stays light (account_of light head.now) (spec.around (spec.followed
        (spec.heft (accounts.first_before light (account_of light index.now) (account_of light element.now))) (spec.heft (account_of light element.now))).peak) }
{
    let may = stands_as_head(head);
    if light {
        let inside = pair(heft_of(index), heft_of(element));
        head_stays(may, heft_of(head), around(inside.peak))
    } else {
        may
    }
}

/// Whether a head stands without brackets in front of a dot.
pub fn stands_before_dot(head: &Expr, light: bool) -> bool
    ensures { result ≡ accounts.head_stays light (account_of light head.now) spec.one }
{
    let may = stands_as_head(head);
    if light {
        head_stays(may, heft_of(head), one())
    } else {
        may
    }
}

/// Whether an index or a low bound stands without brackets in front of what counts together with it.
pub fn stands_first(first: &Expr, next: &Expr, light: bool) -> bool
    ensures { result ≡ accounts.first_stays light (account_of light first.now) (account_of light next.now) }
{
    if light {
        first_stays(heft_of(first), heft_of(next))
    } else {
        true
    }
}

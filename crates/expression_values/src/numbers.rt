ghost use Rattle.std.specs.Prelude.{◌≡◌, MatchOption, true, false};
ghost use Rattle.slang_values.specs.Value.{number, truth};
ghost use Rattle.slang_values.specs.Tree.{binary_value};
ghost use Rattle.program_trees.specs.Operators.{divides as divides_plain, right_evaluated};
ghost use Rattle.run_rules.specs.Evaluation.{is_evaluated};
ghost use Rattle.run_stops.specs.Wide.{fits};
ghost use Rattle.expression_values.specs.Operations.{number_from, order_from, truth_from};

use slang_tree::Operator;
use slang_values::Binary;

/// Whether the operator divides, so that its right operand may not be 0.
pub fn divides(operator: Operator) -> bool
    ensures { result ≡ divides_plain operator }
{
    matches!(operator, Operator::Div | Operator::Rem)
}

/// Whether the right operand is evaluated where the left one has this truth value.
pub fn is_right_evaluated(operator: Operator, left: bool) -> bool
    ensures { result ≡ is_evaluated (right_evaluated operator) left }
{
    match operator {
        Operator::CondAnd | Operator::CondImply | Operator::LooseCondImply => left,
        Operator::CondOr => !left,
        _ => true,
    }
}

/// What an operator makes of two numbers, where that is a number that fits; by 0 the quotient and the rest are 0.
#[tactic(auto, using(crate::proofs::Fitting::number_lines))]
pub fn number_of_two(op: Binary, a: i128, b: i128) -> Option<i128>
    ensures { MatchOption result (fits (number_from op a b) ≡ false) (λ z. (z ≡ number_from op a b) × (fits z ≡ true)) }
{
    match op {
        Binary::Add => a.checked_add(b),
        Binary::Sub => a.checked_sub(b),
        Binary::Mul => a.checked_mul(b),
        Binary::Div => { if b == 0 { Some(0) } else { a.checked_div(b) } }
        Binary::Rem => {
            if b == 0 || b == -1 {
                Some(0)
            } else {
                a.checked_rem(b)
            }
        }
        _ => Some(0),
    }
}

/// What an operator makes of two truth values.
pub fn truth_of_two(op: Binary, a: bool, b: bool) -> bool
    ensures { result ≡ truth_from op a b }
{
    match op {
        Binary::And => a && b,
        Binary::Or => a || b,
        Binary::Imply => !a || b,
        _ => false,
    }
}

/// Whether one number is less than another, or where the operator is `<=` at most the other.
pub fn is_in_order(op: Binary, a: i128, b: i128) -> bool
    ensures { result ≡ order_from op a b }
{
    match op {
        Binary::Lt => a < b,
        Binary::Le => a <= b,
        _ => false,
    }
}

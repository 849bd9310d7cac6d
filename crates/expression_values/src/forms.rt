ghost use Rattle.std.specs.Prelude.{◌≡◌, ◌&&◌, pos, true, false, None, Option};
ghost use Rattle.slang_values.specs.Value.{Records};
ghost use Rattle.slang_values.specs.Value as plain;
ghost use Rattle.slang_values.specs.Tree.{sequence_of, record_of};
ghost use Rattle.lk_claims.specs.Claim.{value_type};
ghost use Rattle.program_trees.specs.Variables.{Variable};
ghost use Rattle.program_trees.specs.Programs.{TypedExpr, TypedExprs, number as number_expr, truth as truth_expr, variable as variable_expr, unary as unary_expr, binary as binary_expr, read as read_expr, update as update_expr, listed as listed_expr};
ghost use Rattle.run_rules.specs.Values.{Values as Assigned};
ghost use Rattle.run_stops.specs.ExpressionStops.{Stop, stopping};
ghost use Rattle.expression_values.specs.Answers.{IsHeld, IsOwned, IsTruth, IsMade, AnswersValue, AnswersValues, value_of, evaluates_right};
ghost use Rattle.expression_values.specs.Operations.{operator_value, order_of};
ghost use Rattle.std.specs.Ordering.{int_eq};
ghost use Rattle.slang_values.specs.Value.{number_of};
ghost use Rattle.program_trees.specs.Operators.{divides as divides_plain};
ghost use Rattle.program_trees.specs.declared.answer.Kind.TheVariants as kinds;
ghost use Rattle.run_rules.specs.Evaluation.{fails_where};
ghost use Rattle.run_values.specs.Value.{held_value};

use crate::ending::EvalEnd;
use crate::made;
use crate::numbers::{is_in_order, truth_of_two};
use lk_claims::{Ty, connective, is_exchanged, is_negated};
use lk_programs::NodeNo;
use owned_results::{all_three, both};
use run_values::{Held, Value};
use slang_tree::Operator;
use slang_values::{Binary, Unary};
use sqlite_items::Items;
use std::alloc::Global;

/// A literal, which fits.
pub fn literal<'v>(node: NodeNo, z: i128) -> Result<Held<'v>, EvalEnd>
    ensures { (records : Records) (assigned : Assigned) → AnswersValue records assigned (number_expr node.0 z) result }
{
    Ok(made::of_number(z))
}

#[tactic(auto, using(run_values::proofs::Values::value_lines))]
pub fn truth_literal<'v>(node: NodeNo, b: bool) -> Result<Held<'v>, EvalEnd>
    ensures { (records : Records) (assigned : Assigned) → AnswersValue records assigned (truth_expr node.0 b) result }
{
    Ok(of_truth(b))
}

/// The value of a variable, which fits.
pub fn variable<'v>(node: NodeNo, value: Held<'v>) -> Result<Held<'v>, EvalEnd>
    ensures { (records : Records) (assigned : Assigned) (x : Variable) → held_value value.entry ≡ assigned x → AnswersValue records assigned (variable_expr node.0 x) result }
{
    Ok(made::known(value))
}

/// The truth value of what was found.
pub fn truth(answer: Result<Held<'_>, EvalEnd>) -> Result<bool, EvalEnd>
    ensures { (stop : Option Stop) (value : plain.Value) → IsHeld stop value answer.entry → IsTruth stop value result }
{
    match answer {
        Ok(held) => Ok(held.as_value().truth()),
        Err(end) => Err(end),
    }
}

/// The value of an operator over what was found at its operand.
pub fn unary<'v>(
    node: NodeNo,
    op: Unary,
    operand: Result<Held<'v>, EvalEnd>,
) -> Result<Held<'v>, EvalEnd>
    ensures { (records : Records) (assigned : Assigned) (a : TypedExpr Variable) → AnswersValue records assigned a operand.entry → AnswersValue records assigned (unary_expr node.0 op a) result }
{
    match operand {
        Err(end) => Err(end),
        Ok(value) => match op {
            Unary::Neg => made::negative(node, value.as_value().number()),
            Unary::Not => made::opposite(node, value.as_value().truth()),
            Unary::Size => made::count(node, value.as_value().size()),
            Unary::Field(place) => Ok(made::known(value.field(place))),
        },
    }
}

/// The value of an operator over the values of its operands, which are both evaluated.
pub fn strict<'v>(
    alloc: Global,
    node: NodeNo,
    operator: Operator,
    left: Held<'v>,
    right: Held<'v>,
) -> Result<Held<'v>, EvalEnd>
    ensures { (records : Records) → IsMade (fails_where (divides_plain operator && int_eq (number_of (held_value right.entry)) (pos 0)) kinds.Division node.0) (operator_value records operator (held_value left.entry) (held_value right.entry)) node.0 result }
{
    match connective(operator) {
        Binary::Imply | Binary::Or | Binary::And => {
            Ok(of_truth(truth_of_two(
                connective(operator),
                left.as_value().truth(),
                right.as_value().truth(),
            )))
        }
        Binary::Eq => {
            let same = left.as_value().same(right.as_value());
            Ok(of_truth(same != is_negated(operator)))
        }
        Binary::Lt | Binary::Le => Ok(of_truth(is_in_place(
            operator,
            left.as_value().number(),
            right.as_value().number(),
        ))),
        Binary::Add | Binary::Sub | Binary::Mul | Binary::Div | Binary::Rem => made::calculated(
            node,
            operator,
            left.as_value().number(),
            right.as_value().number(),
        ),
        Binary::Append | Binary::Read => made::appended(alloc, node, left, right),
    }
}

/// Whether two numbers are in the order that the operator asks for.
fn is_in_place(operator: Operator, left: i128, right: i128) -> bool
    ensures { result ≡ order_of operator left right }
{
    if is_exchanged(operator) {
        is_in_order(connective(operator), right, left)
    } else {
        is_in_order(connective(operator), left, right)
    }
}

#[tactic(auto, using(run_values::proofs::Values::value_lines))]
fn of_truth<'v>(b: bool) -> Held<'v>
    ensures { held_value result ≡ plain.truth b }
{
    Held::Owned(Value::B(b))
}

/// The value of an operator whose left operand does not stop, and whose right one is evaluated.
pub fn binary<'v>(
    alloc: Global,
    node: NodeNo,
    operator: Operator,
    left: Held<'v>,
    right: Result<Held<'v>, EvalEnd>,
) -> Result<Held<'v>, EvalEnd>
    ensures { (records : Records) (assigned : Assigned) (a b : TypedExpr Variable) → stopping records assigned a ≡ None → held_value left.entry ≡ value_of records assigned a
        → evaluates_right records assigned operator a ≡ true → AnswersValue records assigned b right.entry → AnswersValue records assigned (binary_expr node.0 operator a b) result }
{
    match right {
        Err(end) => Err(end),
        Ok(right) => strict(alloc, node, operator, left, right),
    }
}

/// The value of an operator whose left operand decides it, so that the right one is not evaluated.
pub fn decided<'v>(node: NodeNo, operator: Operator, left: Held<'v>) -> Result<Held<'v>, EvalEnd>
    ensures { (records : Records) (assigned : Assigned) (a b : TypedExpr Variable) → stopping records assigned a ≡ None → held_value left.entry ≡ value_of records assigned a
        → evaluates_right records assigned operator a ≡ false → AnswersValue records assigned (binary_expr node.0 operator a b) result }
{
    Ok(of_truth(truth_of_two(connective(operator), left.as_value().truth(), false)))
}

/// The element of a sequence, by what was found at the sequence and at the place.
pub fn read<'v>(
    node: NodeNo,
    head: Result<Held<'v>, EvalEnd>,
    index: Result<Held<'v>, EvalEnd>,
) -> Result<Held<'v>, EvalEnd>
    ensures { (records : Records) (assigned : Assigned) (a i : TypedExpr Variable) → AnswersValue records assigned a head.entry → AnswersValue records assigned i index.entry
        → AnswersValue records assigned (read_expr node.0 a i) result }
{
    match both(head, index) {
        Err(end) => Err(end),
        Ok((head, index)) => made::read(node, head, index.as_value().number()),
    }
}

/// The sequence with another element at a place, by what was found at the sequence, the place and the element.
pub fn update<'v>(
    alloc: Global,
    node: NodeNo,
    head: Result<Held<'v>, EvalEnd>,
    index: Result<Held<'v>, EvalEnd>,
    element: Result<Held<'v>, EvalEnd>,
) -> Result<Held<'v>, EvalEnd>
    ensures { (records : Records) (assigned : Assigned) (a i x : TypedExpr Variable) → AnswersValue records assigned a head.entry → AnswersValue records assigned i index.entry
        → AnswersValue records assigned x element.entry → AnswersValue records assigned (update_expr node.0 a i x) result }
{
    match all_three(head, index, element) {
        Err(end) => Err(end),
        Ok((head, index, element)) => {
            made::updated(alloc, node, head, index.as_value().number(), element)
        }
    }
}

/// A sequence by what was found at its elements.
pub fn sequence<'v>(
    alloc: Global,
    node: NodeNo,
    ty: &Ty,
    elements: Result<Items<Value>, EvalEnd>,
) -> Result<Held<'v>, EvalEnd>
    ensures { (records : Records) (assigned : Assigned) (parts : TypedExprs Variable) → AnswersValues records assigned parts elements
        → AnswersValue records assigned (listed_expr node.0 (sequence_of (value_type ty.now)) parts) result }
{
    match elements {
        Err(end) => Err(end),
        Ok(elements) => match ty.copy(alloc) {
            Ok(ty) => Ok(Held::Owned(Value::Seq(ty, elements))),
            Err(_) => Err(EvalEnd::NoMemory),
        },
    }
}

/// A record by what was found at its fields.
pub fn record_by_fields<'v>(
    node: NodeNo,
    number: u32,
    fields: Result<Items<Value>, EvalEnd>,
) -> Result<Held<'v>, EvalEnd>
    ensures { (records : Records) (assigned : Assigned) (parts : TypedExprs Variable) → AnswersValues records assigned parts fields
        → AnswersValue records assigned (listed_expr node.0 (record_of number) parts) result }
{
    match fields {
        Err(end) => Err(end),
        Ok(fields) => Ok(Held::Owned(Value::Rec(number, fields))),
    }
}

/// The value on its own, by what was found.
pub fn owned(alloc: Global, answer: Result<Held<'_>, EvalEnd>) -> Result<Value, EvalEnd>
    ensures { (stop : Option Stop) (value : plain.Value) → IsHeld stop value answer.entry → IsOwned stop value result }
{
    match answer {
        Err(end) => Err(end),
        Ok(held) => match held.into_value(alloc) {
            Ok(value) => Ok(value),
            Err(_) => Err(EvalEnd::NoMemory),
        },
    }
}

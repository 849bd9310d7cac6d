ghost use Rattle.std.specs.Prelude.{◌≡◌, ◌&&◌, None, not, neg_ℤ, true, false, pos, MatchOption};
ghost use Rattle.std.specs.Ordering.{int_eq};
ghost use Rattle.slang_values.specs.Value.{Records, number, truth, read as read_plain, updated as updated_plain, appended as appended_plain, size_of};
ghost use Rattle.program_trees.specs.Operators.{connective as connective_of, divides as divides_plain};
ghost use Rattle.program_trees.specs.declared.answer.Kind.TheVariants as kinds;
ghost use Rattle.run_rules.specs.Evaluation.{fails_where};
ghost use Rattle.run_stops.specs.Wide.{fits, is_wide};
ghost use Rattle.run_values.specs.Reading.{is_within};
ghost use Rattle.run_values.specs.Value.{plain_value, held_value};
ghost use Rattle.expression_values.specs.Answers.{IsMade};
ghost use Rattle.expression_values.specs.Operations.{number_from};

use crate::ending::EvalEnd;
use crate::numbers::{divides, number_of_two};
use lk_claims::connective;
use lk_programs::NodeNo;
use owned_results::both;
use run_values::{Held, Value, place_within};
use slang_tree::Operator;
use std::alloc::Global;

/// The number with the other sign.
#[tactic(auto, using(crate::proofs::Fitting::number_lines, run_values::proofs::Values::value_lines))]
pub fn negative<'v>(node: NodeNo, z: i128) -> Result<Held<'v>, EvalEnd>
    ensures { IsMade None (number (neg_ℤ z)) node.0 result }
{
    match z.checked_neg() {
        Some(z) => Ok(Held::Owned(Value::Z(z))),
        None => Err(EvalEnd::Wide(node)),
    }
}

/// The other truth value.
#[tactic(auto, using(run_values::proofs::Values::value_lines))]
pub fn opposite<'v>(node: NodeNo, b: bool) -> Result<Held<'v>, EvalEnd>
    ensures { IsMade None (truth (not b)) node.0 result }
{
    Ok(Held::Owned(Value::B(!b)))
}

/// How many elements there are.
pub fn count<'v>(node: NodeNo, count: usize) -> Result<Held<'v>, EvalEnd>
    ensures { IsMade None (number (pos count)) node.0 result }
{
    Ok(of_number(count as i128))
}

/// What an operator makes of two numbers. A division by 0 fails.
#[tactic(auto, using(crate::proofs::Fitting::number_lines, run_values::proofs::Values::value_lines))]
pub fn calculated<'v>(
    node: NodeNo,
    operator: Operator,
    left: i128,
    right: i128,
) -> Result<Held<'v>, EvalEnd>
    ensures { IsMade (fails_where (divides_plain operator && int_eq right (pos 0)) kinds.Division node.0) (number (number_from (connective_of operator) left right)) node.0 result }
{
    if is_by_zero(operator, right) {
        return Err(EvalEnd::Division(node));
    }
    match number_of_two(connective(operator), left, right) {
        Some(z) => Ok(of_number(z)),
        None => Err(EvalEnd::Wide(node)),
    }
}

/// The element of a sequence at a place, which is in range or fails.
#[tactic(auto, using(run_values::proofs::Values::value_lines))]
pub fn read<'v>(node: NodeNo, sequence: Held<'v>, place: i128) -> Result<Held<'v>, EvalEnd>
    ensures { (records : Records) → IsMade (fails_where (not (is_within (size_of (held_value sequence.entry)) place)) kinds.Index node.0) (read_plain records (held_value sequence.entry) place) node.0 result }
{
    match sequence.element(place) {
        Some(element) => Ok(known(element)),
        None => Err(EvalEnd::Index(node)),
    }
}

/// The sequence with another element at a place, which is in range or fails.
pub fn updated<'v>(
    alloc: Global,
    node: NodeNo,
    sequence: Held<'v>,
    place: i128,
    element: Held<'v>,
) -> Result<Held<'v>, EvalEnd>
    ensures { IsMade (fails_where (not (is_within (size_of (held_value sequence.entry)) place)) kinds.Index node.0) (updated_plain (held_value sequence.entry) place (held_value element.entry)) node.0 result }
{
    if place_within(place, sequence.as_value().size()).is_none() {
        return Err(EvalEnd::Index(node));
    }
    match both(sequence.into_value(alloc), element.into_value(alloc)) {
        Ok((sequence, element)) => Ok(known(Held::Owned(sequence.updated(place, element)))),
        Err(_) => Err(EvalEnd::NoMemory),
    }
}

/// The sequence with one more element.
pub fn appended<'v>(
    alloc: Global,
    node: NodeNo,
    sequence: Held<'v>,
    element: Held<'v>,
) -> Result<Held<'v>, EvalEnd>
    ensures { IsMade None (appended_plain (held_value sequence.entry) (held_value element.entry)) node.0 result }
{
    match both(sequence.into_value(alloc), element.into_value(alloc)) {
        Ok((sequence, element)) => match sequence.appended(element) {
            Ok(value) => Ok(known(Held::Owned(value))),
            Err(_) => Err(EvalEnd::NoMemory),
        },
        Err(_) => Err(EvalEnd::NoMemory),
    }
}

/// The value, which fits: a number that is held has 128 bits.
pub fn known<'v>(value: Held<'v>) -> Held<'v>
    ensures same { held_value result ≡ held_value value.entry }
    ensures fits { is_wide (held_value result) ≡ false }
{
    match number_held(value.as_value()) {
        Some(z) => of_number(z),
        None => value,
    }
}

/// The number that a value is, where it is one.
#[tactic(auto, using(run_values::proofs::Values::value_lines))]
fn number_held(value: &Value) -> Option<i128>
    ensures { MatchOption result (is_wide (plain_value value.now) ≡ false) (λ z. plain_value value.now ≡ number z) }
{
    match value {
        Value::Z(z) => Some(*z),
        Value::Unit | Value::B(_) | Value::Seq(_, _) | Value::Rec(_, _) => None,
    }
}

/// A number as a value, which fits.
#[tactic(auto, using(run_values::proofs::Values::value_lines, crate::proofs::Fitting::number_lines))]
pub fn of_number<'v>(z: i128) -> Held<'v>
    ensures value { held_value result ≡ number z }
    ensures fits { fits z ≡ true }
{
    Held::Owned(Value::Z(z))
}

/// Whether the operator divides by this 0.
fn is_by_zero(operator: Operator, right: i128) -> bool
    ensures { result ≡ (divides_plain operator && int_eq right (pos 0)) }
{
    divides(operator) && right == 0
}

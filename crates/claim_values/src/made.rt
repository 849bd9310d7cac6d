ghost use Rattle.std.specs.Prelude.{◌≡◌, neg_ℤ, IfOk};
ghost use Rattle.slang_values.specs.Value.{number, truth, unit, read as read_plain, updated as updated_plain, appended as appended_plain};
ghost use Rattle.slang_values.specs.Tree.{unary_value, binary_value};
ghost use Rattle.lk_programs.specs.Program.{record_types};
ghost use Rattle.run_values.specs.Value.{plain_value, held_value};
ghost use Rattle.expression_values.specs.Operations.{number_from};
ghost use Rattle.claim_values.specs.Answers.{IsMade, default_element as plain_default_element};

use crate::NoMemory;
use crate::ending::ClaimEnd;
use expression_values::made::{known, of_number};
use expression_values::numbers::{is_in_order, number_of_two, truth_of_two};
use lk_programs::RecordTy;
use owned_results::both;
use run_values::{Held, Value, default_of, place_within};
use slang_values::{Binary, Unary};
use std::alloc::Global;

/// A literal, or the value of a bound variable.
pub fn number<'v>(z: i128) -> Result<Held<'v>, ClaimEnd>
    ensures { IsMade (number z) result }
{
    Ok(of_number(z))
}

#[tactic(auto, using(run_values::proofs::Values::value_lines))]
pub fn truth<'v>(b: bool) -> Result<Held<'v>, ClaimEnd>
    ensures { IsMade (truth b) result }
{
    Ok(Held::Owned(Value::B(b)))
}

/// What old values and symbols of proofs count as, of which a test knows nothing.
#[tactic(auto, using(run_values::proofs::Values::value_lines))]
pub fn nothing<'v>() -> Result<Held<'v>, ClaimEnd>
    ensures { IsMade unit result }
{
    Ok(Held::Owned(Value::Unit))
}

/// A value that is held, which fits.
pub fn fitting<'v>(value: Held<'v>) -> Result<Held<'v>, ClaimEnd>
    ensures { IsMade (held_value value.entry) result }
{
    Ok(known(value))
}

/// The number with the other sign.
#[tactic(auto, using(expression_values::proofs::Fitting::number_lines, run_values::proofs::Values::value_lines))]
pub fn negative<'v>(z: i128) -> Result<Held<'v>, ClaimEnd>
    ensures { IsMade (number (neg_ℤ z)) result }
{
    match z.checked_neg() {
        Some(z) => Ok(of_number(z)),
        None => Err(ClaimEnd::Wide),
    }
}

/// What an operator makes of one value.
pub fn unary<'v>(op: Unary, value: Held<'v>) -> Result<Held<'v>, ClaimEnd>
    ensures { IsMade (unary_value op (held_value value.entry)) result }
{
    match op {
        Unary::Neg => negative(value.as_value().number()),
        Unary::Not => truth(!value.as_value().truth()),
        Unary::Size => number(value.as_value().size() as i128),
        Unary::Field(place) => fitting(value.field(place)),
    }
}

/// What an operator makes of two numbers; by 0 the quotient and the rest are 0.
pub fn calculated<'v>(op: Binary, left: i128, right: i128) -> Result<Held<'v>, ClaimEnd>
    ensures { IsMade (number (number_from op left right)) result }
{
    match number_of_two(op, left, right) {
        Some(z) => Ok(of_number(z)),
        None => Err(ClaimEnd::Wide),
    }
}

/// The default of the type of a sequence's elements.
#[tactic(auto, using(run_values::proofs::Values::value_lines))]
fn default_element(alloc: Global, records: &[RecordTy], value: &Value) -> Result<Value, NoMemory>
    ensures { IfOk result (λ v. plain_value v ≡ plain_default_element (record_types records.now) (plain_value value.now)) }
{
    match value {
        Value::Seq(t, _) => default_of(alloc, records, t),
        Value::Unit | Value::Z(_) | Value::B(_) | Value::Rec(_, _) => Ok(Value::Unit),
    }
}

/// The element of a sequence at a place; out of range, the default of the elements' type.
#[tactic(auto, using(crate::proofs::Outside::read_lines))]
pub fn read<'v>(
    alloc: Global,
    records: &[RecordTy],
    sequence: Held<'v>,
    place: i128,
) -> Result<Held<'v>, ClaimEnd>
    ensures { IsMade (read_plain (record_types records.now) (held_value sequence.entry) place) result }
{
    match place_within(place, sequence.as_value().size()) {
        None => match default_element(alloc, records, sequence.as_value()) {
            Ok(value) => fitting(Held::Owned(value)),
            Err(_) => Err(ClaimEnd::NoMemory),
        },
        Some(_) => match sequence.element(place) {
            Some(element) => fitting(element),
            None => nothing(),
        },
    }
}

/// The sequence with another element at a place; out of range, as it is.
pub fn updated<'v>(
    alloc: Global,
    sequence: Held<'v>,
    place: i128,
    element: Held<'v>,
) -> Result<Held<'v>, ClaimEnd>
    ensures { IsMade (updated_plain (held_value sequence.entry) place (held_value element.entry)) result }
{
    match both(sequence.into_value(alloc), element.into_value(alloc)) {
        Ok((sequence, element)) => fitting(Held::Owned(sequence.updated(place, element))),
        Err(_) => Err(ClaimEnd::NoMemory),
    }
}

/// The sequence with one more element.
pub fn appended<'v>(
    alloc: Global,
    sequence: Held<'v>,
    element: Held<'v>,
) -> Result<Held<'v>, ClaimEnd>
    ensures { IsMade (appended_plain (held_value sequence.entry) (held_value element.entry)) result }
{
    match both(sequence.into_value(alloc), element.into_value(alloc)) {
        Ok((sequence, element)) => match sequence.appended(element) {
            Ok(value) => fitting(Held::Owned(value)),
            Err(_) => Err(ClaimEnd::NoMemory),
        },
        Err(_) => Err(ClaimEnd::NoMemory),
    }
}

/// What an operator makes of two values.
pub fn binary<'v>(
    alloc: Global,
    records: &[RecordTy],
    op: Binary,
    left: Held<'v>,
    right: Held<'v>,
) -> Result<Held<'v>, ClaimEnd>
    ensures { IsMade (binary_value (record_types records.now) op (held_value left.entry) (held_value right.entry)) result }
{
    match op {
        Binary::Add | Binary::Sub | Binary::Mul | Binary::Div | Binary::Rem => {
            calculated(op, left.as_value().number(), right.as_value().number())
        }
        Binary::And | Binary::Or | Binary::Imply => {
            truth(truth_of_two(op, left.as_value().truth(), right.as_value().truth()))
        }
        Binary::Eq => truth(left.as_value().same(right.as_value())),
        Binary::Lt | Binary::Le => truth(is_in_order(
            op,
            left.as_value().number(),
            right.as_value().number(),
        )),
        Binary::Read => read(alloc, records, left, right.as_value().number()),
        Binary::Append => appended(alloc, left, right),
    }
}

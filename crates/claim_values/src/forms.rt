ghost use Rattle.std.specs.Prelude.{◌≡◌, ℕ, Bool, false, []};
ghost use Rattle.slang_values.specs.Value as plain;
ghost use Rattle.slang_values.specs.Value.{truth_of, truth, sequence, record_value, updated, number_of};
ghost use Rattle.slang_values.specs.Tree.{unary_value, binary_value, holds_of};
ghost use Rattle.lk_claims.specs.Claim.{value_type};
ghost use Rattle.lk_programs.specs.Program.{record_types};
ghost use Rattle.run_stops.specs.ClaimStops.{Visited, and_then, made as made_of, decides as decides_plain};
ghost use Rattle.claim_values.specs.Answers.{Answers, IsHeld, IsTruth, AreValues, IsOwned};

use crate::ending::ClaimEnd;
use crate::made;
use lk_claims::Ty;
use lk_programs::RecordTy;
use owned_results::{all_three, both};
use run_values::{Held, Value};
use slang_values::{Binary, Quantifier, Unary};
use sqlite_items::Items;
use std::alloc::Global;

/// The value of an operator over what was found at its operand.
pub fn unary<'v>(op: Unary, operand: Result<Held<'v>, ClaimEnd>) -> Result<Held<'v>, ClaimEnd>
    ensures { (visited : Visited) (rest : ℕ) (v : plain.Value) → IsHeld visited rest v operand.entry
        → IsHeld (and_then visited (made_of (unary_value op v))) rest (unary_value op v) result }
{
    match operand {
        Err(end) => Err(end),
        Ok(value) => made::unary(op, value),
    }
}

/// The value of an operator over what was found at its operands.
pub fn binary<'v>(
    alloc: Global,
    records: &[RecordTy],
    op: Binary,
    left: Result<Held<'v>, ClaimEnd>,
    right: Result<Held<'v>, ClaimEnd>,
) -> Result<Held<'v>, ClaimEnd>
    ensures { (first : Visited) (second : ℕ → Visited) (rest more : ℕ) (v w : plain.Value) → IsHeld first rest v left.entry → IsHeld (second rest) more w right.entry
        → IsHeld (and_then first (λ n. and_then (second n) (made_of (binary_value (record_types records.now) op v w)))) more (binary_value (record_types records.now) op v w) result }
{
    match both(left, right) {
        Err(end) => Err(end),
        Ok((left, right)) => made::binary(alloc, records, op, left, right),
    }
}

/// The sequence with another element at a place, by what was found at the sequence, the place and the element.
pub fn update<'v>(
    alloc: Global,
    head: Result<Held<'v>, ClaimEnd>,
    index: Result<Held<'v>, ClaimEnd>,
    element: Result<Held<'v>, ClaimEnd>,
) -> Result<Held<'v>, ClaimEnd>
    ensures { (first : Visited) (second third : ℕ → Visited) (rest more last : ℕ) (v i x : plain.Value) → IsHeld first rest v head.entry → IsHeld (second rest) more i index.entry
        → IsHeld (third more) last x element.entry
        → IsHeld (and_then first (λ n. and_then (second n) (λ m. and_then (third m) (made_of (updated v (number_of i) x))))) last (updated v (number_of i) x) result }
{
    match all_three(head, index, element) {
        Err(end) => Err(end),
        Ok((head, index, element)) => {
            made::updated(alloc, head, index.as_value().number(), element)
        }
    }
}

/// The numbers of what was found at the ends of a range.
pub fn range(
    low: Result<Held<'_>, ClaimEnd>,
    high: Result<Held<'_>, ClaimEnd>,
) -> Result<(i128, i128), ClaimEnd>
    ensures { (first : Visited) (second : ℕ → Visited) (rest more : ℕ) (v w : plain.Value) → IsHeld first rest v low.entry → IsHeld (second rest) more w high.entry
        → Answers (λ ends. (ends.0 ≡ number_of v) × (ends.1 ≡ number_of w)) (and_then first second) more result }
{
    match both(low, high) {
        Err(end) => Err(end),
        Ok((low, high)) => Ok((low.as_value().number(), high.as_value().number())),
    }
}

/// The truth value of what was found.
pub fn truth_found(answer: Result<Held<'_>, ClaimEnd>) -> Result<bool, ClaimEnd>
    ensures { (visited : Visited) (rest : ℕ) (v : plain.Value) → IsHeld visited rest v answer.entry → IsTruth visited rest (truth_of v) result }
{
    match answer {
        Ok(held) => Ok(held.as_value().truth()),
        Err(end) => Err(end),
    }
}

/// The truth value of a quantifier as a value.
#[tactic(auto, using(run_values::proofs::Values::value_lines))]
pub fn quantified<'v>(answer: Result<bool, ClaimEnd>) -> Result<Held<'v>, ClaimEnd>
    ensures { (visited : Visited) (rest : ℕ) (holds : Bool) → IsTruth visited rest holds answer → IsHeld visited rest (truth holds) result }
{
    match answer {
        Ok(b) => Ok(Held::Owned(Value::B(b))),
        Err(end) => Err(end),
    }
}

/// Whether a body with this truth value decides the quantifier.
pub fn decides(quantifier: Quantifier, holds: bool) -> bool
    ensures { result ≡ decides_plain quantifier holds }
{
    match quantifier {
        Quantifier::All => !holds,
        Quantifier::Exists => holds,
    }
}

/// What a quantifier is that no body decides.
pub fn without_bodies(quantifier: Quantifier) -> bool
    ensures { result ≡ holds_of quantifier (λ k. false) [] }
{
    matches!(quantifier, Quantifier::All)
}

/// A sequence by what was found at its elements.
pub fn sequence<'v>(
    alloc: Global,
    ty: &Ty,
    elements: Result<Items<Value>, ClaimEnd>,
) -> Result<Held<'v>, ClaimEnd>
    ensures { (visited : Visited) (rest : ℕ) (vs : plain.Values) → AreValues visited rest vs elements → IsHeld visited rest (sequence (value_type ty.now) vs) result }
{
    match elements {
        Err(end) => Err(end),
        Ok(elements) => match ty.copy(alloc) {
            Ok(ty) => Ok(Held::Owned(Value::Seq(ty, elements))),
            Err(_) => Err(ClaimEnd::NoMemory),
        },
    }
}

/// A record by what was found at its fields.
pub fn record_by_fields<'v>(
    number: u32,
    fields: Result<Items<Value>, ClaimEnd>,
) -> Result<Held<'v>, ClaimEnd>
    ensures { (visited : Visited) (rest : ℕ) (vs : plain.Values) → AreValues visited rest vs fields → IsHeld visited rest (record_value number vs) result }
{
    match fields {
        Err(end) => Err(end),
        Ok(fields) => Ok(Held::Owned(Value::Rec(number, fields))),
    }
}

/// The value on its own, by what was found.
pub fn owned(alloc: Global, answer: Result<Held<'_>, ClaimEnd>) -> Result<Value, ClaimEnd>
    ensures { (visited : Visited) (rest : ℕ) (v : plain.Value) → IsHeld visited rest v answer.entry → IsOwned visited rest v result }
{
    match answer {
        Err(end) => Err(end),
        Ok(held) => match held.into_value(alloc) {
            Ok(value) => Ok(value),
            Err(_) => Err(ClaimEnd::NoMemory),
        },
    }
}

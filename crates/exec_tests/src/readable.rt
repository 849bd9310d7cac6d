//! Whether a leg of plain claims can be followed.

ghost use Rattle.std.specs.Prelude.{◌≡◌, ◌<◌, true, map, length, IsTrue};
ghost use Rattle.std.specs.List.{All};
ghost use Rattle.lk_claims.specs.Claim.{claim_tree, value_type};
ghost use Rattle.lk_claims.specs.Step.{step_tree, step_trees};
ghost use Rattle.lk_programs.specs.LegData.{item_tree};
ghost use Rattle.leg_sorts.specs.Sorts.{has_sort, HaveSorts};
ghost use Rattle.claim_reading.specs.Readable.{IsReadable};
ghost use Rattle.step_terms.specs.Steps.{IsReadableStep, AreReadableSteps};
ghost use Rattle.item_terms.specs.Items.{IsReadableItem};
ghost use Rattle.sym_exec.specs.Steps.{IsReadableLeg};

use lk_claims::{Claim, ProofStep, Shape, Ty};
use lk_programs::{Item, Leg};

#[tactic(auto, using(lk_claims::proofs::Types::type_lines))]
fn is_plain(ty: &Ty) -> bool
    ensures { IsTrue result → has_sort (value_type ty.now) ≡ true }
{
    match ty {
        Ty::Z | Ty::B => true,
        _ => false,
    }
}

/// Whether all are numbers or truth values.
fn are_plain(types: &[Ty]) -> bool
    ensures { IsTrue result → HaveSorts types.now }
{
    for ty in types {
        if !is_plain(ty) {
            return false;
        }
    }
    true
}

fn is_readable_claim(count: usize, claim: &Claim) -> bool
    ensures { IsTrue result → IsReadable count (claim_tree claim.now) }
{
    match claim.shape() {
        Shape::Literal(_) | Shape::Truth(_) => true,
        Shape::LetSymbol(_) => true,
        Shape::Variable(x) => (x as usize) < count,
        Shape::Unary(_, a) => is_readable_claim(count, a),
        Shape::Binary(_, a, b) => is_readable_claim(count, a) && is_readable_claim(count, b),
        _ => false,
    }
}

fn are_within(count: usize, xs: &[u32]) -> bool
    ensures { IsTrue result → All (λ x. x < count) xs.now }
{
    for x in xs {
        if *x as usize >= count {
            return false;
        }
    }
    true
}

/// A block is only told to be readable where it has no steps.
#[tactic(auto, using(lk_claims::proofs::Steps::step_lines))]
fn is_readable_step(count: usize, step: &ProofStep) -> bool
    ensures { IsTrue result → IsReadableStep count (step_tree step.now) }
{
    match step {
        ProofStep::Line { claim, .. } => is_readable_claim(count, claim),
        ProofStep::Sub {
            assumption,
            steps,
            ..
        } => steps.is_empty() && is_readable_claim(count, assumption),
    }
}

fn are_readable_steps(count: usize, steps: &[ProofStep]) -> bool
    ensures { IsTrue result → AreReadableSteps count (step_trees steps.now) }
{
    for step in steps {
        if !is_readable_step(count, step) {
            return false;
        }
    }
    true
}

fn is_readable_item(count: usize, item: &Item) -> bool
    ensures { IsTrue result → IsReadableItem count (item_tree item.now) }
{
    match item {
        Item::Assume(claim) => is_readable_claim(count, claim),
        Item::Check(_, claim) => is_readable_claim(count, claim),
        Item::Set(x, claim) => (*x as usize) < count && is_readable_claim(count, claim),
        Item::Fresh(xs) => are_within(count, xs.as_slice()),
        Item::Proof(steps) => are_readable_steps(count, steps.as_slice()),
    }
}

fn are_readable(count: usize, items: &[Item]) -> bool
    ensures { IsTrue result → All (IsReadableItem count) (map item_tree items.now) }
{
    for item in items {
        if !is_readable_item(count, item) {
            return false;
        }
    }
    true
}

/// Whether the leg has no records, and can be followed.
pub fn is_readable(leg: &Leg) -> bool
    ensures { IsTrue result → IsReadableLeg leg.now }
{
    let none = leg.records.is_empty();
    let plain = are_plain(leg.vars.as_slice());
    let readable = are_readable(leg.vars.len(), leg.items.as_slice());
    all_hold(none, plain, readable)
}

fn all_hold(first: bool, second: bool, third: bool) -> bool
    ensures first { IsTrue result → IsTrue first }
    ensures second { IsTrue result → IsTrue second }
    ensures third { IsTrue result → IsTrue third }
{
    first && second && third
}

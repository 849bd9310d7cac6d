ghost use Rattle.std.specs.Prelude.{◌≡◌, [], ◌∷◌, ◌++◌, map, IfOk, OnOk};
ghost use Rattle.std.specs.List.{flat_map};
ghost use Rattle.slang_values.specs.Value.{record_type};
ghost use Rattle.program_trees.specs.Claims.{renamed_step, renamed_steps};
ghost use Rattle.lk_claims.specs.Claim.{claim_tree, value_type};
ghost use Rattle.lk_claims.specs.Step.{step_tree, step_trees};
ghost use Rattle.leg_rules.specs.LegNames.{same_name};
ghost use Rattle.leg_rules.specs.Numbering.{claim_appears, item_appears, of_type, of_variable, record_order, step_appears, steps_appear, variable_order, with_new};
ghost use Rattle.leg_items.specs.Names.{frame_name, leg_name};
ghost use Rattle.leg_items.specs.Drafts.{draft_item, framed, items_of};
ghost use Rattle.leg_orders.specs.Places.{method_of, program_of};
ghost use Rattle.leg_orders.specs.Closed.{IsClosed};
ghost use Rattle.leg_orders.specs.Walks.{Follows, claims_appear};

use crate::NoMemory;
use crate::records::{add_record_type, add_type};
use crate::types::type_of;
use leg_items::{Draft, DraftItem, Frame, Name};
use leg_mentions::is_among;
use lk_claims::{Claim, ProofStep, Shape, Ty};
use lk_programs::Typed;
use sqlite_items::Items;
use std::alloc::Global;

/// The variables and the records that have appeared, each once, in the order in which they first did.
#[derive(Drop)]
pub struct Order {
    pub names: Items<Name>,
    pub records: Items<u32>,
}

fn push_new(names: &mut Items<Name>, name: Name) -> Result<(), NoMemory>
    ensures { OnOk result (map leg_name names.new ≡ with_new same_name (map leg_name names.old) (leg_name name)) }
{
    if is_among(names.as_slice(), name) {
        return Ok(());
    }
    names.push(name)
}

/// A variable appears, and brings the records of its type.
fn add_name(typed: &Typed, method: u32, name: Name, order: &mut Order) -> Result<(), NoMemory>
    requires { IsClosed (program_of typed.now) order.old.records }
    ensures { OnOk result (Follows typed.now method order.old order.new (of_variable (leg_name name) ∷ [])) }
{
    push_new(&mut order.names, name)?;
    match type_of(typed, method, name) {
        Some(ty) => add_type(typed, ty, &mut order.records),
        None => Ok(()),
    }
}

/// The type of the elements of a sequence appears in front of them.
fn add_element_type(typed: &Typed, method: u32, ty: &Ty, order: &mut Order) -> Result<(), NoMemory>
    requires { IsClosed (program_of typed.now) order.old.records }
    ensures { OnOk result (Follows typed.now method order.old order.new (of_type (value_type ty.now) ∷ [])) }
{
    add_type(typed, ty, &mut order.records)
}

/// A record appears in front of its fields.
fn add_front_record(
    typed: &Typed,
    method: u32,
    number: u32,
    order: &mut Order,
) -> Result<(), NoMemory>
    requires { IsClosed (program_of typed.now) order.old.records }
    ensures { OnOk result (Follows typed.now method order.old order.new (of_type (record_type number) ∷ [])) }
{
    add_record_type(typed, number, &mut order.records)
}

/// Goes through a claim from the left.
#[cycle(claim)]
fn add_claim(
    typed: &Typed,
    method: u32,
    frame: Frame,
    claim: &Claim,
    order: &mut Order,
) -> Result<(), NoMemory>
    requires { IsClosed (program_of typed.now) order.old.records }
    ensures { OnOk result (Follows typed.now method order.old order.new (claim_appears (framed frame (claim_tree claim.now)))) }
{
    match claim.shape() {
        Shape::Literal(_) => Ok(()),
        Shape::Truth(_) => Ok(()),
        Shape::Bound(_) => Ok(()),
        Shape::LetSymbol(_) => Ok(()),
        Shape::Variable(n) => add_name(typed, method, frame.name(n), order),
        Shape::OldVariable(n) => add_name(typed, method, frame.name(n), order),
        Shape::Unary(_, a) => add_claim(typed, method, frame, a, order),
        Shape::Binary(_, a, b) => {
            add_claim(typed, method, frame, a, order)?;
            add_claim(typed, method, frame, b, order)
        }
        Shape::Update(a, i, x) => add_three(typed, method, frame, a, i, x, order),
        Shape::Quantified(_, low, high, body) => {
            add_three(typed, method, frame, low, high, body, order)
        }
        Shape::Sequence(ty, claims) => {
            add_element_type(typed, method, ty, order)?;
            add_claims(typed, method, frame, claims, order)
        }
        Shape::Record(number, claims) => {
            add_front_record(typed, method, number, order)?;
            add_claims(typed, method, frame, claims, order)
        }
    }
}

#[cycle(claim)]
fn add_three(
    typed: &Typed,
    method: u32,
    frame: Frame,
    first: &Claim,
    second: &Claim,
    third: &Claim,
    order: &mut Order,
) -> Result<(), NoMemory>
    requires { IsClosed (program_of typed.now) order.old.records }
    ensures { OnOk result (Follows typed.now method order.old order.new (claim_appears (framed frame (claim_tree first.now))
        ++ (claim_appears (framed frame (claim_tree second.now)) ++ claim_appears (framed frame (claim_tree third.now))))) }
{
    add_claim(typed, method, frame, first, order)?;
    add_claim(typed, method, frame, second, order)?;
    add_claim(typed, method, frame, third, order)
}

#[cycle(claim)]
#[tactic(auto, using(lk_claims::proofs::Sizes::deepest_lines))]
fn add_claims(
    typed: &Typed,
    method: u32,
    frame: Frame,
    claims: &[Claim],
    order: &mut Order,
) -> Result<(), NoMemory>
    requires { IsClosed (program_of typed.now) order.old.records }
    ensures { OnOk result (Follows typed.now method order.old order.new (claims_appear frame claims.now)) }
{
    for claim in claims {
        add_claim(typed, method, frame, claim, order)?;
    }
    Ok(())
}

/// Goes through a step of a proof.
#[cycle(steps)]
fn add_step(
    typed: &Typed,
    method: u32,
    frame: Frame,
    step: &ProofStep,
    order: &mut Order,
) -> Result<(), NoMemory>
    requires { IsClosed (program_of typed.now) order.old.records }
    ensures { OnOk result (Follows typed.now method order.old order.new (step_appears (renamed_step (frame_name frame) (step_tree step.now)))) }
{
    match step {
        ProofStep::Line { claim, .. } => add_claim(typed, method, frame, claim, order),
        ProofStep::Sub {
            assumption,
            steps,
            ..
        } => {
            add_claim(typed, method, frame, assumption, order)?;
            add_steps(typed, method, frame, steps.as_slice(), order)
        }
    }
}

#[cycle(steps)]
fn add_steps(
    typed: &Typed,
    method: u32,
    frame: Frame,
    steps: &[ProofStep],
    order: &mut Order,
) -> Result<(), NoMemory>
    requires { IsClosed (program_of typed.now) order.old.records }
    ensures { OnOk result (Follows typed.now method order.old order.new (steps_appear (renamed_steps (frame_name frame) (step_trees steps.now)))) }
{
    for step in steps {
        add_step(typed, method, frame, step, order)?;
    }
    Ok(())
}

fn add_names(typed: &Typed, method: u32, names: &[Name], order: &mut Order) -> Result<(), NoMemory>
    requires { IsClosed (program_of typed.now) order.old.records }
    ensures { OnOk result (Follows typed.now method order.old order.new (map of_variable (map leg_name names.now))) }
{
    for name in names {
        add_name(typed, method, *name, order)?;
    }
    Ok(())
}

/// Goes through an item. A variable that is set appears before what it is set to.
fn add_draft(typed: &Typed, method: u32, draft: &Draft, order: &mut Order) -> Result<(), NoMemory>
    requires { IsClosed (program_of typed.now) order.old.records }
    ensures { OnOk result (Follows typed.now method order.old order.new (item_appears (draft_item draft.now))) }
{
    match draft {
        Draft::Assume(frame, claim) => add_claim(typed, method, *frame, claim, order),
        Draft::Check(_, frame, claim) => add_claim(typed, method, *frame, claim, order),
        Draft::Set(name, frame, claim) => {
            add_name(typed, method, *name, order)?;
            add_claim(typed, method, *frame, claim, order)
        }
        Draft::SetToVariable(name, source) => {
            add_name(typed, method, *name, order)?;
            add_name(typed, method, *source, order)
        }
        Draft::Fresh(names) => add_names(typed, method, names.as_slice(), order),
        Draft::Proof(frame, steps) => add_steps(typed, method, *frame, steps.as_slice(), order),
    }
}

fn add_drafts(
    typed: &Typed,
    method: u32,
    drafts: &[DraftItem],
    order: &mut Order,
) -> Result<(), NoMemory>
    requires { IsClosed (program_of typed.now) order.old.records }
    ensures { OnOk result (Follows typed.now method order.old order.new (flat_map (λ item. item_appears (draft_item item.draft)) drafts.now)) }
{
    for item in drafts {
        add_draft(typed, method, &item.draft, order)?;
    }
    Ok(())
}

/// The variables and the records of the leg of that method, in the order in which they first appear.
pub fn order_of(
    alloc: Global,
    typed: &Typed,
    method: u32,
    drafts: &[DraftItem],
) -> Result<Order, NoMemory>
    ensures variables { IfOk result (λ order. map leg_name order.names ≡ variable_order (program_of typed.now) (method_of typed.now method) (items_of drafts.now)) }
    ensures records { IfOk result (λ order. order.records ≡ record_order (program_of typed.now) (method_of typed.now method) (items_of drafts.now)) }
{
    let mut order = Order {
        names: Items::new(alloc),
        records: Items::new(alloc),
    };
    add_drafts(typed, method, drafts, &mut order)?;
    Ok(order)
}

ghost use Rattle.std.specs.Prelude.{◌≡◌, IfOk, map};
ghost use Rattle.slang_values.specs.Value.{fields};
ghost use Rattle.lk_claims.specs.Claim.{value_type};
ghost use Rattle.lk_programs.specs.LegData.{item_tree, leg_tree};
ghost use Rattle.lk_programs.specs.Program.{record_types};
ghost use Rattle.leg_rules.specs.Numbering.{leg_name_type, leg_tree as numbered_leg, numbered as leg_over};
ghost use Rattle.leg_items.specs.Names.{leg_name};
ghost use Rattle.leg_items.specs.Drafts.{draft_item, items_of};
ghost use Rattle.leg_orders.specs.Places.{method_of, program_of};
ghost use Rattle.leg_numbers.specs.Numbered.{numbered_item, numbered_type};

use crate::NoMemory;
use crate::claims::claim_numbered;
use crate::numbers::{names_numbered, number_of_name, type_numbered};
use crate::steps::steps_numbered;
use leg_items::{Draft, DraftItem, Name};
use leg_orders::{Order, order_of, type_of};
use lk_claims::{Claim, Ty};
use lk_programs::{FieldTy, Item, Leg, Typed};
use owned_results::all_three;
use sqlite_items::Items;
use std::alloc::Global;

/// The item over numbers.
#[tactic(auto, using(lk_claims::proofs::Trees::claim_lines, crate::proofs::NumberedLines::step_lists))]
fn item_numbered(alloc: Global, order: &Order, draft: &Draft) -> Result<Item, NoMemory>
    ensures { IfOk result (λ item. item_tree item ≡ numbered_item order.now (draft_item draft.now)) }
{
    match draft {
        Draft::Assume(frame, claim) => {
            Ok(Item::Assume(claim_numbered(alloc, order, *frame, claim)?))
        }
        Draft::Check(kind, frame, claim) => {
            Ok(Item::Check(*kind, claim_numbered(alloc, order, *frame, claim)?))
        }
        Draft::Set(name, frame, claim) => {
            let number = number_of_name(order, *name)?;
            Ok(Item::Set(number, claim_numbered(alloc, order, *frame, claim)?))
        }
        Draft::SetToVariable(name, source) => {
            let number = number_of_name(order, *name)?;
            Ok(Item::Set(number, Claim::Var(number_of_name(order, *source)?)))
        }
        Draft::Fresh(names) => Ok(Item::Fresh(names_numbered(alloc, order, names.as_slice())?)),
        Draft::Proof(frame, steps) => {
            Ok(Item::Proof(steps_numbered(alloc, order, *frame, steps.as_slice())?))
        }
    }
}

fn items_numbered(
    alloc: Global,
    order: &Order,
    drafts: &[DraftItem],
) -> Result<Items<Item>, NoMemory>
    ensures { IfOk result (λ items. map item_tree items ≡ map (λ item. numbered_item order.now (draft_item item.draft)) drafts.now) }
{
    let mut items = Items::new(alloc);
    for item in drafts {
        items.push(item_numbered(alloc, order, &item.draft)?)?;
    }
    Ok(items)
}

/// The type of a variable over the numbers of records.
fn name_type(
    alloc: Global,
    typed: &Typed,
    method: u32,
    order: &Order,
    name: Name,
) -> Result<Ty, NoMemory>
    ensures { IfOk result (λ t. value_type t ≡ numbered_type order.now (leg_name_type (program_of typed.now) (method_of typed.now method) (leg_name name))) }
{
    match type_of(typed, method, name) {
        Some(ty) => type_numbered(alloc, order, ty),
        None => Ok(Ty::Unit),
    }
}

fn variable_types(
    alloc: Global,
    typed: &Typed,
    method: u32,
    order: &Order,
) -> Result<Items<Ty>, NoMemory>
    ensures { IfOk result (λ ts. map value_type ts
        ≡ map (λ name. numbered_type order.now (leg_name_type (program_of typed.now) (method_of typed.now method) (leg_name name))) order.now.names) }
{
    let mut types = Items::new(alloc);
    for name in order.names.as_slice() {
        types.push(name_type(alloc, typed, method, order, *name)?)?;
    }
    Ok(types)
}

/// The types of fields over the numbers of records.
fn field_types(alloc: Global, order: &Order, fields: &[FieldTy]) -> Result<Items<Ty>, NoMemory>
    ensures { IfOk result (λ ts. map value_type ts ≡ map (λ field. numbered_type order.now (value_type field.ty)) fields.now) }
{
    let mut types = Items::new(alloc);
    for field in fields {
        types.push(type_numbered(alloc, order, &field.ty)?)?;
    }
    Ok(types)
}

/// The fields of a record of the program over the numbers of records.
#[tactic(auto, using(crate::proofs::NumberedLines::field_lines))]
fn record_fields(
    alloc: Global,
    typed: &Typed,
    order: &Order,
    number: u32,
) -> Result<Items<Ty>, NoMemory>
    ensures { IfOk result (λ ts. map value_type ts ≡ map (numbered_type order.now) (fields (record_types typed.now.records) number)) }
{
    match typed.records.get(number as usize) {
        Some(found) => field_types(alloc, order, found.fields.as_slice()),
        None => Ok(Items::new(alloc)),
    }
}

fn records_numbered(
    alloc: Global,
    typed: &Typed,
    order: &Order,
) -> Result<Items<Items<Ty>>, NoMemory>
    ensures { IfOk result (λ rs. map (map value_type) rs ≡ map (λ n. map (numbered_type order.now) (fields (record_types typed.now.records) n)) order.now.records) }
{
    let mut records = Items::new(alloc);
    for record in order.records.as_slice() {
        records.push(record_fields(alloc, typed, order, *record)?)?;
    }
    Ok(records)
}

fn numbered_by(
    alloc: Global,
    typed: &Typed,
    method: u32,
    order: &Order,
    drafts: &[DraftItem],
) -> Result<Leg, NoMemory>
    ensures { IfOk result (λ leg. leg_tree leg ≡ leg_over (program_of typed.now) (method_of typed.now method) (items_of drafts.now) (map leg_name order.now.names) order.now.records) }
{
    let (records, vars, items) = all_three(
        records_numbered(alloc, typed, order),
        variable_types(alloc, typed, method, order),
        items_numbered(alloc, order, drafts),
    )?;
    Ok(Leg {
        records,
        vars,
        items,
    })
}

/// The leg of the method of that number with these items. Its variables and records are those that appear on it, numbered in the
/// order in which they first do.
pub fn numbered(
    alloc: Global,
    typed: &Typed,
    method: u32,
    drafts: &[DraftItem],
) -> Result<Leg, NoMemory>
    ensures { IfOk result (λ leg. leg_tree leg ≡ numbered_leg (program_of typed.now) (method_of typed.now method) (items_of drafts.now)) }
{
    let order = order_of(alloc, typed, method, drafts)?;
    numbered_by(alloc, typed, method, &order, drafts)
}

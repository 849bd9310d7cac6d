ghost use Rattle.std.specs.Prelude.{◌≡◌, ◌++◌, true, OnOk, IfOk};
ghost use Rattle.program_trees.specs.Legs.{proof};
ghost use Rattle.leg_forms.specs.WellFormed.{is_checked};
ghost use Rattle.key_rules.specs.Codes.{kind_code};
ghost use Rattle.key_rules.specs.Fits.{FitsItem, FitsLeg, FitsList, FitsType};
ghost use Rattle.key_rules.specs.Writing.{encode as key_of, item_bytes, list_bytes};
ghost use Rattle.lk_claims.specs.Claim.{value_type};
ghost use Rattle.lk_claims.specs.Step.{step_trees};
ghost use Rattle.lk_programs.specs.LegData.{item_tree, leg_tree};
ghost use Rattle.leg_key.specs.Parts.{fields_key, item_key, lists_key, FitLists};

use crate::bytes::{add_byte, add_length, add_number, add_numbers};
use crate::claims::add_claim;
use crate::steps::add_steps;
use crate::types::add_types;
use crate::{NoMemory, codes};
use lk_claims::{ProofStep, Ty};
use lk_programs::{Item, Leg};
use program_trees::Kind;
use sqlite_items::Items;
use std::alloc::{AllocError, Global};

/// The code of a kind that a check may be of. The two that only a proof has are refused.
fn checked_kind(kind: Kind) -> Result<u8, NoMemory>
    ensures code { IfOk result (λ code. code ≡ kind_code kind) }
    ensures checked { OnOk result (is_checked kind ≡ true) }
{
    match kind {
        Kind::Deduce | Kind::Term => Err(AllocError),
        _ => Ok(codes::kind(kind)),
    }
}

fn add_item(item: &Item, key: &mut Vec<u8>) -> Result<(), NoMemory>
    ensures written { OnOk result (key.new.items ≡ key.old.items ++ item_key item.now) }
    ensures fits { OnOk result (FitsItem (item_tree item.now)) }
{
    match item {
        Item::Assume(claim) => {
            add_byte(codes::ASSUME, key)?;
            add_claim(claim, key)
        }
        Item::Check(kind, claim) => {
            add_byte(codes::CHECK, key)?;
            add_byte(checked_kind(*kind)?, key)?;
            add_claim(claim, key)
        }
        Item::Set(variable, claim) => {
            add_byte(codes::SET, key)?;
            add_number(*variable, key)?;
            add_claim(claim, key)
        }
        Item::Fresh(variables) => {
            add_byte(codes::FRESH, key)?;
            add_numbers(variables.as_slice(), key)
        }
        Item::Proof(steps) => add_proof(steps.as_slice(), key),
    }
}

fn add_proof(steps: &[ProofStep], key: &mut Vec<u8>) -> Result<(), NoMemory>
    ensures written { OnOk result (key.new.items ≡ key.old.items ++ item_bytes (proof (step_trees steps.now))) }
    ensures fits { OnOk result (FitsItem (proof (step_trees steps.now))) }
{
    add_byte(codes::PROOF, key)?;
    add_steps(steps, key)
}

fn add_items(items: &[Item], key: &mut Vec<u8>) -> Result<(), NoMemory>
    ensures written { OnOk result (key.new.items ≡ key.old.items ++ list_bytes item_key items.now) }
    ensures fits { OnOk result (FitsList (λ item. FitsItem (item_tree item)) items.now) }
{
    add_length(items.len(), key)?;
    for item in items {
        add_item(item, key)?;
    }
    Ok(())
}

fn add_records(records: &[Items<Ty>], key: &mut Vec<u8>) -> Result<(), NoMemory>
    ensures written { OnOk result (key.new.items ≡ key.old.items ++ list_bytes fields_key records.now) }
    ensures fits { OnOk result (FitsList (FitsList (λ ty. FitsType (value_type ty))) records.now) }
{
    add_length(records.len(), key)?;
    for fields in records {
        add_types(fields.as_slice(), key)?;
    }
    Ok(())
}

fn add_lists(
    records: &[Items<Ty>],
    types: &[Ty],
    items: &[Item],
    key: &mut Vec<u8>,
) -> Result<(), NoMemory>
    ensures written { OnOk result (key.new.items ≡ key.old.items ++ lists_key records.now types.now items.now) }
    ensures fits { OnOk result (FitLists records.now types.now items.now) }
{
    add_byte(codes::PROFILE, key)?;
    add_records(records, key)?;
    add_types(types, key)?;
    add_items(items, key)
}

fn add_leg(leg: &Leg, key: &mut Vec<u8>) -> Result<(), NoMemory>
    ensures written { OnOk result (key.new.items ≡ key.old.items ++ key_of (leg_tree leg.now)) }
    ensures fits { OnOk result (FitsLeg (leg_tree leg.now)) }
{
    add_lists(
        leg.records.as_slice(),
        leg.vars.as_slice(),
        leg.items.as_slice(),
        key,
    )
}

/// The key of a leg. A list that is longer than a key can say is refused.
pub fn encode(alloc: Global, leg: &Leg) -> Result<Vec<u8>, NoMemory>
    ensures written { IfOk result (λ key. key.items ≡ key_of (leg_tree leg.now)) }
    ensures fits { OnOk result (FitsLeg (leg_tree leg.now)) }
{
    let mut key = Vec::new(alloc);
    add_leg(leg, &mut key)?;
    Ok(key)
}

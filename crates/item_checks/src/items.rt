ghost use Rattle.std.specs.Prelude.{◌≡◌, IfOk, map, slice_get};
ghost use Rattle.std.specs.List.{list_all};
ghost use Rattle.lk_claims.specs.Claim.{claim_tree, value_type};
ghost use Rattle.lk_claims.specs.Step.{step_trees};
ghost use Rattle.lk_programs.specs.LegData.{item_tree};
ghost use Rattle.leg_forms.specs.WellFormed as forms;
ghost use Rattle.claim_types.specs.Views.{records_of};
ghost use Rattle.item_checks.specs.Tests.{assumed_passes as assumed, are_there as there, item_passes as passes, proof_passes as proof, set_passes as set};

use crate::NoMemory;
use crate::labels::has_distinct_labels;
use claim_types::{Scope, TypeView};
use lk_claims::{Claim, ProofStep, Ty};
use lk_programs::Item;
use program_trees::Kind;
use sqlite_items::Items;
use std::alloc::Global;
use step_checks::{claim_passes, steps_pass};

/// How many blocks may stand one inside another.
const BLOCKS: u32 = 200;

/// Whether a claim outside proofs is a truth value that is well typed and low enough.
fn assumed_passes(records: &[Items<Ty>], vars: &[Ty], claim: &Claim) -> bool
    ensures { result ≡ assumed (records_of records.now) (map value_type vars.now) (claim_tree claim.now) }
{
    let scope = Scope { vars, labels: None };
    claim_passes(records, scope, TypeView::Truth, claim)
}

/// Whether a check may be made for it.
fn is_checked(kind: Kind) -> bool
    ensures { result ≡ forms.is_checked kind }
{
    match kind {
        Kind::Assert => true,
        Kind::Requires => true,
        Kind::Ensures => true,
        Kind::InvStart => true,
        Kind::InvKept => true,
        Kind::Index => true,
        Kind::Division => true,
        Kind::Deduce => false,
        Kind::Term => false,
    }
}

/// Whether the variable is there, and the claim is of its type and low enough.
fn set_passes(records: &[Items<Ty>], vars: &[Ty], variable: u32, claim: &Claim) -> bool
    ensures { result ≡ set (records_of records.now) (map value_type vars.now) (slice_get (map value_type vars.now) variable) (claim_tree claim.now) }
{
    match vars.get(variable as usize) {
        Some(ty) => {
            let scope = Scope { vars, labels: None };
            claim_passes(records, scope, TypeView::new(ty), claim)
        }
        None => false,
    }
}

/// Whether there are variables of these numbers.
fn are_there(vars: &[Ty], numbers: &[u32]) -> bool
    ensures { result ≡ there (map value_type vars.now) numbers.now }
{
    for number in numbers {
        if *number as usize >= vars.len() {
            return false;
        }
    }
    true
}

/// Whether the steps of a proof are well typed and well formed, and no label stands twice.
fn proof_passes(
    alloc: Global,
    records: &[Items<Ty>],
    vars: &[Ty],
    steps: &[ProofStep],
) -> Result<bool, NoMemory>
    ensures { IfOk result (λ b. b ≡ proof (records_of records.now) (map value_type vars.now) (step_trees steps.now)) }
{
    let mut labels = Items::new(alloc);
    if !steps_pass(records, vars, &mut labels, BLOCKS, steps)? {
        return Ok(false);
    }
    has_distinct_labels(alloc, steps)
}

/// Whether an item is well typed and well formed.
fn item_passes(
    alloc: Global,
    records: &[Items<Ty>],
    vars: &[Ty],
    item: &Item,
) -> Result<bool, NoMemory>
    ensures { IfOk result (λ b. b ≡ passes (records_of records.now) (map value_type vars.now) (item_tree item.now)) }
{
    match item {
        Item::Assume(claim) => Ok(assumed_passes(records, vars, claim)),
        Item::Check(kind, claim) => {
            Ok(is_checked(*kind) && assumed_passes(records, vars, claim))
        }
        Item::Set(variable, claim) => Ok(set_passes(records, vars, *variable, claim)),
        Item::Fresh(variables) => Ok(are_there(vars, variables.as_slice())),
        Item::Proof(steps) => proof_passes(alloc, records, vars, steps.as_slice()),
    }
}

/// Whether items are well typed and well formed, over records with fields of these types and variables of these types.
pub fn items_pass(
    alloc: Global,
    records: &[Items<Ty>],
    vars: &[Ty],
    items: &[Item],
) -> Result<bool, NoMemory>
    ensures { IfOk result (λ b. b ≡ list_all (passes (records_of records.now) (map value_type vars.now)) (map item_tree items.now)) }
{
    for item in items {
        if !item_passes(alloc, records, vars, item)? {
            return Ok(false);
        }
    }
    Ok(true)
}

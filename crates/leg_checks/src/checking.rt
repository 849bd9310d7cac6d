ghost use Rattle.std.specs.Prelude.{◌≡◌, ◌↔◌, IfOk, IsTrue};
ghost use Rattle.leg_forms.specs.WellFormed.{IsWellFormedLeg};
ghost use Rattle.lk_programs.specs.LegData.{leg_tree};
ghost use Rattle.leg_checks.specs.Tests.{are_all_seen, is_all, leg_passes, passes_over as over};

use crate::NoMemory;
use item_checks::items_pass;
use leg_appearances::{Seen, items_seen};
use lk_programs::Leg;
use record_checks::{Summary, are_fields, record_table};
use std::alloc::Global;

/// Whether these are so many variables and records.
fn is_everything(variables: usize, records: usize, seen: Option<Seen>) -> bool
    ensures { result ≡ is_all variables records seen }
{
    match seen {
        Some(seen) => seen.variables == variables && seen.records == records,
        None => false,
    }
}

/// Whether all variables and records of the leg appear on it, each the next one when it first does.
fn are_in_order(table: &[Summary], leg: &Leg) -> bool
    ensures { result ≡ are_all_seen table.now (leg_tree leg.now) }
{
    let seen = items_seen(table, leg.vars.as_slice(), leg.items.as_slice());
    is_everything(leg.vars.len(), leg.records.len(), seen)
}

/// Whether a leg is well formed, where its records have this table.
fn passes_over(alloc: Global, table: &[Summary], leg: &Leg) -> Result<bool, NoMemory>
    ensures { IfOk result (λ b. b ≡ over table.now (leg_tree leg.now)) }
{
    if !are_fields(leg.records.len(), leg.vars.as_slice()) {
        return Ok(false);
    }
    if !are_in_order(table, leg) {
        return Ok(false);
    }
    items_pass(
        alloc,
        leg.records.as_slice(),
        leg.vars.as_slice(),
        leg.items.as_slice(),
    )
}

fn passes(alloc: Global, leg: &Leg) -> Result<bool, NoMemory>
    ensures { IfOk result (λ b. b ≡ leg_passes (leg_tree leg.now)) }
{
    match record_table(alloc, leg.records.as_slice())? {
        Some(table) => passes_over(alloc, table.as_slice(), leg),
        None => Ok(false),
    }
}

/// Whether a leg is well formed.
pub fn is_well_formed(alloc: Global, leg: &Leg) -> Result<bool, NoMemory>
    ensures { IfOk result (λ b. IsTrue b ↔ IsWellFormedLeg (leg_tree leg.now)) }
{
    passes(alloc, leg)
}

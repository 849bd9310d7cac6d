ghost use Rattle.std.specs.Prelude.{◌≡◌, map};
ghost use Rattle.lk_claims.specs.Claim.{claim_tree, value_type};
ghost use Rattle.lk_programs.specs.LegData.{item_tree};
ghost use Rattle.program_trees.specs.Legs.{set};
ghost use Rattle.leg_appearances.specs.Seen.{all_seen, item_appearing, items_appearing};

use crate::claims::with_claim;
use crate::steps::with_steps;
use crate::variables::{Seen, with_variable, with_variables};
use lk_claims::{Claim, Ty};
use lk_programs::Item;
use record_checks::Summary;

/// A variable that is set appears before the claim.
fn with_set(table: &[Summary], vars: &[Ty], seen: Seen, number: u32, claim: &Claim) -> Option<Seen>
    ensures { result ≡ all_seen table.now (map value_type vars.now) seen (item_appearing (set number (claim_tree claim.now))) }
{
    match with_variable(table, vars, seen, number) {
        Some(next) => with_claim(table, vars, next, claim),
        None => None,
    }
}

/// What an item names appears.
fn with_item(table: &[Summary], vars: &[Ty], seen: Seen, item: &Item) -> Option<Seen>
    ensures { result ≡ all_seen table.now (map value_type vars.now) seen (item_appearing (item_tree item.now)) }
{
    match item {
        Item::Assume(claim) => with_claim(table, vars, seen, claim),
        Item::Check(_, claim) => with_claim(table, vars, seen, claim),
        Item::Set(number, claim) => with_set(table, vars, seen, *number, claim),
        Item::Fresh(numbers) => with_variables(table, vars, seen, numbers.as_slice()),
        Item::Proof(steps) => with_steps(table, vars, seen, steps.as_slice()),
    }
}

/// How many variables and records appear on items, where each is the next one when it first does.
pub fn items_seen(table: &[Summary], vars: &[Ty], items: &[Item]) -> Option<Seen>
    ensures { result ≡ all_seen table.now (map value_type vars.now) (record { variables = 0; records = 0 }) (items_appearing (map item_tree items.now)) }
{
    let mut so_far = Seen {
        variables: 0,
        records: 0,
    };
    for item in items {
        match with_item(table, vars, so_far, item) {
            Some(next) => so_far = next,
            None => return None,
        }
    }
    Some(so_far)
}

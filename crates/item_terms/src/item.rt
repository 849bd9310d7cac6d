ghost use Rattle.std.specs.Prelude.{◌≡◌, ℕ, true, map, length, IfOk, IfErr, OnOk};
ghost use Rattle.term_trees.specs.Term.{sort_type};
ghost use Rattle.term_store.specs.Store.{GainsAmong};
ghost use Rattle.lk_programs.specs.LegData.{item_tree};
ghost use Rattle.leg_states.specs.State.{state_of, IsOver};
ghost use Rattle.step_terms.specs.Steps.{IsPast};
ghost use Rattle.item_terms.specs.Items.{after_item, is_small_item, asked, asked_at, IsAskedWithin, item_kind, gained, IsReadableItem};

use crate::asked::Asked;
use crate::claims::{assume, check, set};
use crate::proof::take_proof;
use leg_states::LegState;
use lk_programs::Item;
use sqlite_items::Items;
use std::alloc::Global;
use step_terms::ItemEnd;
use term_store::TermStore;
use term_trees::Sort;

/// What the item asks for. The state is that behind it.
pub fn take_item(
    alloc: Global,
    store: &mut TermStore,
    state: &mut LegState,
    sorts: &[Sort],
    records: &[Items<Sort>],
    item: &Item,
) -> Result<Asked, ItemEnd>
    requires over { IsOver (length sorts.now) store.old state.old }
    requires readable { IsReadableItem (length sorts.now) (item_tree item.now) }
    ensures asked { IfOk result (λ it. (place : ℕ) → asked (map sort_type sorts.now) (map (map sort_type) records.now) place
        (state_of store.old state.old) (item_tree item.now) ≡ asked_at store.new place (item_kind (item_tree item.now)) it) }
    ensures within { IfOk result (λ it. IsAskedWithin store.new it) }
    ensures state { OnOk result (state_of store.new state.new
        ≡ after_item (map sort_type sorts.now) (state_of store.old state.old) (item_tree item.now)) }
    ensures over { OnOk result (IsOver (length sorts.now) store.new state.new) }
    ensures small { OnOk result (is_small_item (map sort_type sorts.now) (state_of store.old state.old) (item_tree item.now) ≡ true) }
    ensures end { IfErr result (λ end. IsPast end (is_small_item (map sort_type sorts.now) (state_of store.old state.old) (item_tree item.now))) }
    ensures gains { GainsAmong store.old store.new (gained (map sort_type sorts.now) (state_of store.old state.old) (item_tree item.now)) }
{
    match item {
        Item::Assume(claim) => {
            assume(alloc, store, state, sorts, claim)?;
            Ok(Asked::Nothing)
        }
        Item::Check(_, claim) => Ok(Asked::Sequent(check(
            alloc, store, state, sorts, records, claim,
        )?)),
        Item::Set(x, claim) => {
            set(alloc, store, state, sorts, *x, claim)?;
            Ok(Asked::Nothing)
        }
        Item::Fresh(xs) => {
            state.make_fresh(alloc, store, sorts, xs.as_slice())?;
            Ok(Asked::Nothing)
        }
        Item::Proof(steps) => { take_proof(alloc, store, state, sorts, records, steps.as_slice()) }
    }
}

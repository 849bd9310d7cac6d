ghost use Rattle.std.specs.Prelude.{◌≡◌, ◌<◌, true, map, length, IfOk, IfErr, OnOk};
ghost use Rattle.term_trees.specs.Term.{sort_type};
ghost use Rattle.term_store.specs.Store.{GainsAmong, subtrees};
ghost use Rattle.term_store.specs.Sequent.{sequent_at, IsSequentWithin};
ghost use Rattle.lk_claims.specs.Claim.{claim_tree};
ghost use Rattle.leg_rules.specs.Store.{read_claim, with_fact, set_variable, is_small};
ghost use Rattle.leg_rules.specs.Sequents.{read_term, sequent};
ghost use Rattle.claim_reading.specs.Readable.{IsReadable};
ghost use Rattle.leg_states.specs.State.{state_of, IsOver};
ghost use Rattle.step_terms.specs.Steps.{IsPast};

use crate::sequent::sequent_over;
use leg_states::LegState;
use lk_claims::Claim;
use sqlite_items::Items;
use std::alloc::Global;
use step_terms::{ItemEnd, read_small};
use term_store::{IdSequent, TermStore};
use term_trees::Sort;

/// A claim is a fact from here on.
pub fn assume(
    alloc: Global,
    store: &mut TermStore,
    state: &mut LegState,
    sorts: &[Sort],
    claim: &Claim,
) -> Result<(), ItemEnd>
    requires over { IsOver (length sorts.now) store.old state.old }
    requires readable { IsReadable (length sorts.now) (claim_tree claim.now) }
    ensures state { OnOk result (state_of store.new state.new
        ≡ with_fact (read_term (map sort_type sorts.now) (state_of store.old state.old) (claim_tree claim.now))
        (read_claim (map sort_type sorts.now) (claim_tree claim.now) (state_of store.old state.old))) }
    ensures over { OnOk result (IsOver (length sorts.now) store.new state.new) }
    ensures small { OnOk result (is_small (read_term (map sort_type sorts.now) (state_of store.old state.old) (claim_tree claim.now)) ≡ true) }
    ensures end { IfErr result (λ end. IsPast end
        (is_small (read_term (map sort_type sorts.now) (state_of store.old state.old) (claim_tree claim.now)))) }
    ensures gains { GainsAmong store.old store.new
        (subtrees (read_term (map sort_type sorts.now) (state_of store.old state.old) (claim_tree claim.now))) }
{
    let id = read_small(alloc, store, state, sorts, claim)?;
    state.add_fact(id)?;
    Ok(())
}

/// A variable has the term of a claim from here on.
pub fn set(
    alloc: Global,
    store: &mut TermStore,
    state: &mut LegState,
    sorts: &[Sort],
    x: u32,
    claim: &Claim,
) -> Result<(), ItemEnd>
    requires over { IsOver (length sorts.now) store.old state.old }
    requires variable { x < length sorts.now }
    requires readable { IsReadable (length sorts.now) (claim_tree claim.now) }
    ensures state { OnOk result (state_of store.new state.new
        ≡ set_variable x (read_term (map sort_type sorts.now) (state_of store.old state.old) (claim_tree claim.now))
        (read_claim (map sort_type sorts.now) (claim_tree claim.now) (state_of store.old state.old))) }
    ensures over { OnOk result (IsOver (length sorts.now) store.new state.new) }
    ensures small { OnOk result (is_small (read_term (map sort_type sorts.now) (state_of store.old state.old) (claim_tree claim.now)) ≡ true) }
    ensures end { IfErr result (λ end. IsPast end
        (is_small (read_term (map sort_type sorts.now) (state_of store.old state.old) (claim_tree claim.now)))) }
    ensures gains { GainsAmong store.old store.new
        (subtrees (read_term (map sort_type sorts.now) (state_of store.old state.old) (claim_tree claim.now))) }
{
    let id = read_small(alloc, store, state, sorts, claim)?;
    state.set_variable(x, id)?;
    Ok(())
}

/// The sequent of a check, whose claim is a fact from here on.
pub fn check(
    alloc: Global,
    store: &mut TermStore,
    state: &mut LegState,
    sorts: &[Sort],
    records: &[Items<Sort>],
    claim: &Claim,
) -> Result<IdSequent, ItemEnd>
    requires over { IsOver (length sorts.now) store.old state.old }
    requires readable { IsReadable (length sorts.now) (claim_tree claim.now) }
    ensures sequent { IfOk result (λ it. sequent_at store.new it ≡ sequent (map (map sort_type) records.now)
        (read_claim (map sort_type sorts.now) (claim_tree claim.now) (state_of store.old state.old))
        (read_term (map sort_type sorts.now) (state_of store.old state.old) (claim_tree claim.now))) }
    ensures within { IfOk result (λ it. IsSequentWithin store.new it) }
    ensures state { OnOk result (state_of store.new state.new
        ≡ with_fact (read_term (map sort_type sorts.now) (state_of store.old state.old) (claim_tree claim.now))
        (read_claim (map sort_type sorts.now) (claim_tree claim.now) (state_of store.old state.old))) }
    ensures over { OnOk result (IsOver (length sorts.now) store.new state.new) }
    ensures small { OnOk result (is_small (read_term (map sort_type sorts.now) (state_of store.old state.old) (claim_tree claim.now)) ≡ true) }
    ensures end { IfErr result (λ end. IsPast end
        (is_small (read_term (map sort_type sorts.now) (state_of store.old state.old) (claim_tree claim.now)))) }
    ensures gains { GainsAmong store.old store.new
        (subtrees (read_term (map sort_type sorts.now) (state_of store.old state.old) (claim_tree claim.now))) }
{
    let goal = read_small(alloc, store, state, sorts, claim)?;
    let sequent = sequent_over(alloc, state, records, goal)?;
    match state.add_fact(goal) {
        Ok(()) => Ok(sequent),
        Err(_) => Err(ItemEnd::NoMemory),
    }
}

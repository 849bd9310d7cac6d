ghost use Rattle.std.specs.Prelude.{◌≡◌, true, map, length, IfOk, IfErr, OnOk};
ghost use Rattle.term_trees.specs.Term.{sort_type};
ghost use Rattle.term_store.specs.Store.{Holds, GainsAmong, subtrees};
ghost use Rattle.lk_claims.specs.Claim.{claim_tree};
ghost use Rattle.leg_rules.specs.Store.{read_claim, is_small};
ghost use Rattle.leg_rules.specs.Sequents.{read_term};
ghost use Rattle.claim_reading.specs.Readable.{IsReadable};
ghost use Rattle.leg_states.specs.State.{state_of, IsOver};
ghost use Rattle.step_terms.specs.Steps.{IsPast};

use crate::end::ItemEnd;
use claim_terms::{is_small, read_claim};
use leg_states::LegState;
use lk_claims::Claim;
use std::alloc::Global;
use term_store::TermStore;
use term_trees::Sort;

/// The number of the term of a claim, which is within the limits.
pub fn read_small(
    alloc: Global,
    store: &mut TermStore,
    state: &mut LegState,
    sorts: &[Sort],
    claim: &Claim,
) -> Result<usize, ItemEnd>
    requires over { IsOver (length sorts.now) store.old state.old }
    requires readable { IsReadable (length sorts.now) (claim_tree claim.now) }
    ensures state { OnOk result (state_of store.new state.new
        ≡ read_claim (map sort_type sorts.now) (claim_tree claim.now) (state_of store.old state.old)) }
    ensures number { IfOk result (λ id. Holds store.new id
        (read_term (map sort_type sorts.now) (state_of store.old state.old) (claim_tree claim.now))) }
    ensures over { OnOk result (IsOver (length sorts.now) store.new state.new) }
    ensures small { OnOk result (is_small (read_term (map sort_type sorts.now) (state_of store.old state.old) (claim_tree claim.now)) ≡ true) }
    ensures end { IfErr result (λ end. IsPast end
        (is_small (read_term (map sort_type sorts.now) (state_of store.old state.old) (claim_tree claim.now)))) }
    ensures gains { GainsAmong store.old store.new
        (subtrees (read_term (map sort_type sorts.now) (state_of store.old state.old) (claim_tree claim.now))) }
{
    let id = read_claim(alloc, store, state, sorts, claim)?;
    if is_small(store, id) {
        Ok(id)
    } else {
        Err(ItemEnd::Size)
    }
}

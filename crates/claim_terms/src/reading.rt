ghost use Rattle.std.specs.Prelude.{◌≡◌, None, map, length, IfOk, OnOk};
ghost use Rattle.slang_values.specs.Tree.{parts};
ghost use Rattle.term_trees.specs.Term.{sort_type};
ghost use Rattle.term_store.specs.Store.{Holds, AreTreesOf, GainsAmong, subtrees};
ghost use Rattle.lk_claims.specs.Claim.{claim_tree};
ghost use Rattle.leg_rules.specs.Store.{read_claim};
ghost use Rattle.leg_rules.specs.Sequents.{read_term};
ghost use Rattle.claim_reading.specs.Readable.{name_in, IsReadable};
ghost use Rattle.claim_reading.specs.Reading.{read_claims, read_terms};
ghost use Rattle.leg_states.specs.State.{state_of, IsOver};

use crate::NoMemory;
use claim_parts::{name_in, node_over, part, part_count};
use leg_states::LegState;
use lk_claims::Claim;
use sqlite_items::Items;
use std::alloc::Global;
use term_store::TermStore;
use term_trees::Sort;

/// The number of the term of a claim. Each variable in it that has no term yet takes a symbol, from the left.
#[cycle(read)]
pub fn read_claim(
    alloc: Global,
    store: &mut TermStore,
    state: &mut LegState,
    sorts: &[Sort],
    claim: &Claim,
) -> Result<usize, NoMemory>
    requires over { IsOver (length sorts.now) store.old state.old }
    requires readable { IsReadable (length sorts.now) (claim_tree claim.now) }
    ensures state { OnOk result (state_of store.new state.new
        ≡ read_claim (map sort_type sorts.now) (claim_tree claim.now) (state_of store.old state.old)) }
    ensures number { IfOk result (λ id. Holds store.new id
        (read_term (map sort_type sorts.now) (state_of store.old state.old) (claim_tree claim.now))) }
    ensures over { OnOk result (IsOver (length sorts.now) store.new state.new) }
    ensures gains { GainsAmong store.old store.new
        (subtrees (read_term (map sort_type sorts.now) (state_of store.old state.old) (claim_tree claim.now))) }
{
    match name_in(claim) {
        Some(name) => state.read_name(alloc, store, sorts, name),
        None => read_inner(alloc, store, state, sorts, claim),
    }
}

/// The number of the term of a claim that is no name.
#[cycle(read)]
fn read_inner(
    alloc: Global,
    store: &mut TermStore,
    state: &mut LegState,
    sorts: &[Sort],
    claim: &Claim,
) -> Result<usize, NoMemory>
    requires over { IsOver (length sorts.now) store.old state.old }
    requires readable { IsReadable (length sorts.now) (claim_tree claim.now) }
    requires inner { name_in (claim_tree claim.now) ≡ None }
    ensures state { OnOk result (state_of store.new state.new
        ≡ read_claim (map sort_type sorts.now) (claim_tree claim.now) (state_of store.old state.old)) }
    ensures number { IfOk result (λ id. Holds store.new id
        (read_term (map sort_type sorts.now) (state_of store.old state.old) (claim_tree claim.now))) }
    ensures over { OnOk result (IsOver (length sorts.now) store.new state.new) }
    ensures gains { GainsAmong store.old store.new
        (subtrees (read_term (map sort_type sorts.now) (state_of store.old state.old) (claim_tree claim.now))) }
{
    let ids = read_parts(alloc, store, state, sorts, claim)?;
    let node = node_over(alloc, claim, ids.as_slice())?;
    store.add_node(node)
}

/// The numbers of the terms of the claim's parts.
#[cycle(read)]
fn read_parts(
    alloc: Global,
    store: &mut TermStore,
    state: &mut LegState,
    sorts: &[Sort],
    claim: &Claim,
) -> Result<Items<usize>, NoMemory>
    requires over { IsOver (length sorts.now) store.old state.old }
    requires readable { IsReadable (length sorts.now) (claim_tree claim.now) }
    requires inner { name_in (claim_tree claim.now) ≡ None }
    ensures state { OnOk result (state_of store.new state.new
        ≡ read_claims (map sort_type sorts.now) (parts (claim_tree claim.now)) (state_of store.old state.old)) }
    ensures trees { IfOk result (λ ids. AreTreesOf store.new ids
        (read_terms (map sort_type sorts.now) (state_of store.old state.old) (parts (claim_tree claim.now)))) }
    ensures over { OnOk result (IsOver (length sorts.now) store.new state.new) }
    ensures gains { GainsAmong store.old store.new
        (subtrees (read_term (map sort_type sorts.now) (state_of store.old state.old) (claim_tree claim.now))) }
{
    let mut ids = Items::new(alloc);
    for place in 0..part_count(claim) {
        let id = read_claim(alloc, store, state, sorts, part(claim, place))?;
        ids.push(id)?;
    }
    Ok(ids)
}

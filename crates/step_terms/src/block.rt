ghost use Rattle.std.specs.Prelude.{◌≡◌, true, map, length, List, IfOk, IfErr, OnOk, IsOk, Err};
ghost use Rattle.term_trees.specs.Term.{sort_type, tree};
ghost use Rattle.term_nodes.specs.declared.node.Node.{Node};
ghost use Rattle.term_store.specs.Store.{GainsAmong, subtrees};
ghost use Rattle.lk_claims.specs.Claim.{claim_tree};
ghost use Rattle.deduction_rules.specs.Step.{block};
ghost use Rattle.deduction.specs.Steps as term_steps;
ghost use Rattle.leg_rules.specs.Store.{read_claim, is_small};
ghost use Rattle.leg_rules.specs.Sequents.{begin_block, block_symbol, read_term};
ghost use Rattle.claim_reading.specs.Readable.{IsReadable};
ghost use Rattle.leg_states.specs.State.{state_of, IsOver};
ghost use Rattle.step_terms.specs.Steps.{IsPast};

use crate::NoMemory;
use crate::end::ItemEnd;
use crate::small::read_small;
use leg_states::LegState;
use lk_claims::Claim;
use lk_terms::StepTerm;
use sqlite_items::Items;
use std::alloc::{AllocError, Global};
use stored_trees::term_at;
use term_store::TermStore;
use term_trees::{Sort, Term};

/// What stands in front of the steps of a block: its symbol, where it has one, and its assumption.
#[derive(Drop)]
pub struct Opening {
    pub symbol: Option<u32>,
    pub given: Term,
}

/// The symbol that a block takes, where it takes one.
fn symbol_of(has_symbol: bool, state: &LegState) -> Result<Option<u32>, NoMemory>
    ensures { IfOk result (λ symbol. (store : List Node) → symbol ≡ block_symbol has_symbol (state_of store state.now)) }
{
    if has_symbol {
        match u32::try_from(state.sorts.len()) {
            Ok(symbol) => Ok(Some(symbol)),
            Err(_) => Err(AllocError),
        }
    } else {
        Ok(None)
    }
}

/// Begins a block, and reads its assumption.
pub fn open_block(
    alloc: Global,
    store: &mut TermStore,
    state: &mut LegState,
    sorts: &[Sort],
    label: u32,
    has_symbol: bool,
    given: &Claim,
) -> Result<Opening, ItemEnd>
    requires over { IsOver (length sorts.now) store.old state.old }
    requires readable { IsReadable (length sorts.now) (claim_tree given.now) }
    ensures state { OnOk result (state_of store.new state.new
        ≡ read_claim (map sort_type sorts.now) (claim_tree given.now) (begin_block has_symbol label (state_of store.old state.old))) }
    ensures symbol { IfOk result (λ o. o.symbol ≡ block_symbol has_symbol (state_of store.old state.old)) }
    ensures given { IfOk result (λ o. tree o.given
        ≡ read_term (map sort_type sorts.now) (begin_block has_symbol label (state_of store.old state.old)) (claim_tree given.now)) }
    ensures over { OnOk result (IsOver (length sorts.now) store.new state.new) }
    ensures small { OnOk result (is_small
        (read_term (map sort_type sorts.now) (begin_block has_symbol label (state_of store.old state.old)) (claim_tree given.now)) ≡ true) }
    ensures end { IfErr result (λ end. IsPast end (is_small
        (read_term (map sort_type sorts.now) (begin_block has_symbol label (state_of store.old state.old)) (claim_tree given.now)))) }
    ensures gains { GainsAmong store.old store.new (subtrees
        (read_term (map sort_type sorts.now) (begin_block has_symbol label (state_of store.old state.old)) (claim_tree given.now))) }
{
    let symbol = symbol_of(has_symbol, state)?;
    state.begin_block(has_symbol, label)?;
    match read_small(alloc, store, state, sorts, given) {
        Err(end) => Err(end),
        Ok(id) => match term_at(alloc, store, id) {
            Err(_) => Err(ItemEnd::NoMemory),
            Ok(given) => Ok(Opening { symbol, given }),
        },
    }
}

/// The block over its steps.
#[tactic(auto, using(deduction::proofs::Steps::step_lines))]
pub fn block_over(
    label: u32,
    assumed: u32,
    opening: Opening,
    steps: Result<Items<StepTerm>, ItemEnd>,
) -> Result<StepTerm, ItemEnd>
    ensures term { IfOk result (λ s. IfOk steps (λ ss. term_steps.step_tree s
        ≡ block label opening.symbol assumed (tree opening.given) (term_steps.step_trees ss))) }
    ensures ok { OnOk result (IsOk steps) }
    ensures end { IfErr result (λ end. steps ≡ Err end) }
{
    match steps {
        Ok(steps) => Ok(StepTerm::Sub {
            label,
            symbol: opening.symbol,
            assumed,
            assumption: opening.given,
            steps,
        }),
        Err(end) => Err(end),
    }
}

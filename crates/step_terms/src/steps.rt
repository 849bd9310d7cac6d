ghost use Rattle.std.specs.Prelude.{◌≡◌, true, map, length, IfOk, IfErr, OnOk};
ghost use Rattle.term_trees.specs.Term.{sort_type};
ghost use Rattle.term_store.specs.Store.{GainsAmong};
ghost use Rattle.lk_claims.specs.Step as claim_steps;
ghost use Rattle.deduction.specs.Steps as term_steps;
ghost use Rattle.leg_rules.specs.Sequents.{after_step, after_steps, step_term, step_terms, is_small_step, are_small_steps, outermost};
ghost use Rattle.leg_states.specs.State.{state_of, IsOver};
ghost use Rattle.step_terms.specs.Steps.{IsReadableStep, AreReadableSteps, IsPast, ClaimMore, own_claim, step_subtrees, steps_subtrees};

use crate::block::{block_over, open_block};
use crate::end::ItemEnd;
use crate::line::read_line;
use leg_states::LegState;
use lk_claims::ProofStep;
use lk_terms::StepTerm;
use sqlite_items::Items;
use std::alloc::Global;
use term_store::TermStore;
use term_trees::Sort;

/// A step over terms. Where it is a line, the number of its claim is one more of the claims.
#[cycle(steps)]
#[tactic(auto, using(lk_claims::proofs::Steps::step_lines))]
fn read_step(
    alloc: Global,
    store: &mut TermStore,
    state: &mut LegState,
    sorts: &[Sort],
    step: &ProofStep,
    claims: &mut Items<usize>,
) -> Result<StepTerm, ItemEnd>
    requires over { IsOver (length sorts.now) store.old state.old }
    requires readable { IsReadableStep (length sorts.now) (claim_steps.step_tree step.now) }
    ensures state { OnOk result (state_of store.new state.new
        ≡ after_step (map sort_type sorts.now) (state_of store.old state.old) (claim_steps.step_tree step.now)) }
    ensures term { IfOk result (λ s. term_steps.step_tree s
        ≡ step_term (map sort_type sorts.now) (state_of store.old state.old) (claim_steps.step_tree step.now)) }
    ensures over { OnOk result (IsOver (length sorts.now) store.new state.new) }
    ensures small { OnOk result (is_small_step
        (step_term (map sort_type sorts.now) (state_of store.old state.old) (claim_steps.step_tree step.now)) ≡ true) }
    ensures claims { OnOk result (ClaimMore store.old claims.old store.new claims.new
        (own_claim (step_term (map sort_type sorts.now) (state_of store.old state.old) (claim_steps.step_tree step.now)))) }
    ensures end { IfErr result (λ end. IsPast end (is_small_step
        (step_term (map sort_type sorts.now) (state_of store.old state.old) (claim_steps.step_tree step.now)))) }
    ensures gains { GainsAmong store.old store.new (step_subtrees
        (step_term (map sort_type sorts.now) (state_of store.old state.old) (claim_steps.step_tree step.now))) }
{
    match step {
        ProofStep::Line {
            label,
            claim,
            rule,
            cites,
        } => read_line(
            alloc,
            store,
            state,
            sorts,
            *label,
            claim,
            *rule,
            cites.as_slice(),
            claims,
        ),
        ProofStep::Sub {
            label,
            bind,
            assumed,
            assumption,
            steps,
        } => match open_block(alloc, store, state, sorts, *label, *bind, assumption) {
            Err(end) => Err(end),
            Ok(opening) => block_over(
                *label,
                *assumed,
                opening,
                read_inner(alloc, store, state, sorts, steps.as_slice()),
            ),
        },
    }
}

/// The steps of a block over terms.
#[cycle(steps)]
fn read_inner(
    alloc: Global,
    store: &mut TermStore,
    state: &mut LegState,
    sorts: &[Sort],
    steps: &[ProofStep],
) -> Result<Items<StepTerm>, ItemEnd>
    requires over { IsOver (length sorts.now) store.old state.old }
    requires readable { AreReadableSteps (length sorts.now) (claim_steps.step_trees steps.now) }
    ensures state { OnOk result (state_of store.new state.new
        ≡ after_steps (map sort_type sorts.now) (state_of store.old state.old) (claim_steps.step_trees steps.now)) }
    ensures terms { IfOk result (λ ss. term_steps.step_trees ss
        ≡ step_terms (map sort_type sorts.now) (state_of store.old state.old) (claim_steps.step_trees steps.now)) }
    ensures over { OnOk result (IsOver (length sorts.now) store.new state.new) }
    ensures small { OnOk result (are_small_steps
        (step_terms (map sort_type sorts.now) (state_of store.old state.old) (claim_steps.step_trees steps.now)) ≡ true) }
    ensures end { IfErr result (λ end. IsPast end (are_small_steps
        (step_terms (map sort_type sorts.now) (state_of store.old state.old) (claim_steps.step_trees steps.now)))) }
    ensures gains { GainsAmong store.old store.new (steps_subtrees
        (step_terms (map sort_type sorts.now) (state_of store.old state.old) (claim_steps.step_trees steps.now))) }
{
    let mut claims = Items::new(alloc);
    read_steps(alloc, store, state, sorts, steps, &mut claims)
}

/// Steps over terms, one after the other. The numbers of the claims of the outermost lines are added to the claims.
#[cycle(steps)]
pub fn read_steps(
    alloc: Global,
    store: &mut TermStore,
    state: &mut LegState,
    sorts: &[Sort],
    steps: &[ProofStep],
    claims: &mut Items<usize>,
) -> Result<Items<StepTerm>, ItemEnd>
    requires over { IsOver (length sorts.now) store.old state.old }
    requires readable { AreReadableSteps (length sorts.now) (claim_steps.step_trees steps.now) }
    ensures state { OnOk result (state_of store.new state.new
        ≡ after_steps (map sort_type sorts.now) (state_of store.old state.old) (claim_steps.step_trees steps.now)) }
    ensures terms { IfOk result (λ ss. term_steps.step_trees ss
        ≡ step_terms (map sort_type sorts.now) (state_of store.old state.old) (claim_steps.step_trees steps.now)) }
    ensures over { OnOk result (IsOver (length sorts.now) store.new state.new) }
    ensures small { OnOk result (are_small_steps
        (step_terms (map sort_type sorts.now) (state_of store.old state.old) (claim_steps.step_trees steps.now)) ≡ true) }
    ensures claims { OnOk result (ClaimMore store.old claims.old store.new claims.new (outermost
        (step_terms (map sort_type sorts.now) (state_of store.old state.old) (claim_steps.step_trees steps.now)))) }
    ensures end { IfErr result (λ end. IsPast end (are_small_steps
        (step_terms (map sort_type sorts.now) (state_of store.old state.old) (claim_steps.step_trees steps.now)))) }
    ensures gains { GainsAmong store.old store.new (steps_subtrees
        (step_terms (map sort_type sorts.now) (state_of store.old state.old) (claim_steps.step_trees steps.now))) }
{
    let mut terms = Items::new(alloc);
    for step in steps {
        match read_step(alloc, store, state, sorts, step, claims) {
            Ok(term) => terms.push(term)?,
            Err(end) => return Err(end),
        }
    }
    Ok(terms)
}

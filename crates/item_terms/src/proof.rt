ghost use Rattle.std.specs.Prelude.{◌≡◌, ◌∷◌, [], ℕ, true, map, length, IfOk, IfErr, OnOk, IsOk};
ghost use Rattle.slang_values.specs.Tree.{truth_literal};
ghost use Rattle.term_trees.specs.Term.{sort_type};
ghost use Rattle.term_store.specs.Store.{tree_at, AreWithin, AreTreesOf, GainsAmong};
ghost use Rattle.term_store.specs.Sequent.{sequent_at, IsSequentWithin};
ghost use Rattle.program_trees.specs.declared.answer.Kind.TheVariants as kinds;
ghost use Rattle.lk_claims.specs.Step as claim_steps;
ghost use Rattle.deduction.specs.Steps as term_steps;
ghost use Rattle.leg_rules.specs.Sequents.{to_accept, base, step_terms, after_steps, are_small_steps, outermost, with_facts};
ghost use Rattle.leg_states.specs.State.{state_of, IsOver};
ghost use Rattle.step_terms.specs.Steps.{AreReadableSteps, IsPast, steps_subtrees};
ghost use Rattle.step_terms.specs.declared.end.ItemEnd.TheVariants as ends;
ghost use Rattle.item_terms.specs.Items.{asked_at, IsAskedWithin};

use crate::NoMemory;
use crate::asked::Asked;
use crate::sequent::sequent_over;
use leg_states::LegState;
use lk_claims::ProofStep;
use lk_terms::StepTerm;
use sqlite_items::Items;
use std::alloc::Global;
use step_terms::{ItemEnd, read_steps};
use term_store::{IdSequent, Node, TermStore};
use term_trees::Sort;

/// The steps over terms, and the numbers of the claims of the outermost ones.
fn read_proof(
    alloc: Global,
    store: &mut TermStore,
    state: &mut LegState,
    sorts: &[Sort],
    steps: &[ProofStep],
) -> Result<(Items<StepTerm>, Items<usize>), ItemEnd>
    requires over { IsOver (length sorts.now) store.old state.old }
    requires readable { AreReadableSteps (length sorts.now) (claim_steps.step_trees steps.now) }
    ensures state { OnOk result (state_of store.new state.new
        ≡ after_steps (map sort_type sorts.now) (state_of store.old state.old) (claim_steps.step_trees steps.now)) }
    ensures terms { IfOk result (λ p. term_steps.step_trees p.0
        ≡ step_terms (map sort_type sorts.now) (state_of store.old state.old) (claim_steps.step_trees steps.now)) }
    ensures claims { IfOk result (λ p. AreTreesOf store.new p.1 (outermost
        (step_terms (map sort_type sorts.now) (state_of store.old state.old) (claim_steps.step_trees steps.now)))) }
    ensures over { OnOk result (IsOver (length sorts.now) store.new state.new) }
    ensures small { OnOk result (are_small_steps
        (step_terms (map sort_type sorts.now) (state_of store.old state.old) (claim_steps.step_trees steps.now)) ≡ true) }
    ensures end { IfErr result (λ end. IsPast end (are_small_steps
        (step_terms (map sort_type sorts.now) (state_of store.old state.old) (claim_steps.step_trees steps.now)))) }
    ensures gains { GainsAmong store.old store.new (steps_subtrees
        (step_terms (map sort_type sorts.now) (state_of store.old state.old) (claim_steps.step_trees steps.now))) }
{
    let mut claims = Items::new(alloc);
    match read_steps(alloc, store, state, sorts, steps, &mut claims) {
        Ok(terms) => Ok((terms, claims)),
        Err(end) => Err(end),
    }
}

/// The present facts, with a goal that nobody looks at.
fn base_over(
    alloc: Global,
    store: &mut TermStore,
    state: &LegState,
    records: &[Items<Sort>],
) -> Result<IdSequent, NoMemory>
    ensures base { IfOk result (λ it. sequent_at store.new it ≡ base (map (map sort_type) records.now) (state_of store.new state.now)) }
    ensures within { IfOk result (λ it. (count : ℕ) → IsOver count store.new state.now → IsSequentWithin store.new it) }
    ensures gains { GainsAmong store.old store.new (truth_literal true ∷ []) }
{
    match store.add_node(Node::True) {
        Err(end) => Err(end),
        Ok(goal) => sequent_over(alloc, state, records, goal),
    }
}

/// The present facts, behind which the claims are facts too.
fn base_before(
    alloc: Global,
    store: &mut TermStore,
    state: &mut LegState,
    records: &[Items<Sort>],
    claims: Items<usize>,
) -> Result<IdSequent, NoMemory>
    ensures base { IfOk result (λ it. (count : ℕ) → IsOver count store.old state.old →
        sequent_at store.new it ≡ base (map (map sort_type) records.now) (state_of store.old state.old)) }
    ensures within { IfOk result (λ it. (count : ℕ) → IsOver count store.old state.old → IsSequentWithin store.new it) }
    ensures state { OnOk result ((count : ℕ) → IsOver count store.old state.old → AreWithin store.old claims →
        state_of store.new state.new ≡ with_facts (map (tree_at store.old) claims) (state_of store.old state.old)) }
    ensures over { OnOk result ((count : ℕ) → IsOver count store.old state.old → AreWithin store.old claims → IsOver count store.new state.new) }
    ensures gains { GainsAmong store.old store.new (truth_literal true ∷ []) }
{
    match base_over(alloc, store, state, records) {
        Err(end) => Err(end),
        Ok(base) => match state.facts.append(claims) {
            Err(end) => Err(end),
            Ok(()) => Ok(base),
        },
    }
}

/// The steps over their base.
fn proof_over(steps: Items<StepTerm>, base: Result<IdSequent, NoMemory>) -> Result<Asked, ItemEnd>
    ensures asked { IfOk result (λ it. IfOk base (λ b. it ≡ Asked.Proof b steps)) }
    ensures ok { OnOk result (IsOk base) }
    ensures end { IfErr result (λ end. end ≡ ends.NoMemory) }
{
    match base {
        Ok(base) => Ok(Asked::Proof { base, steps }),
        Err(_) => Err(ItemEnd::NoMemory),
    }
}

/// The steps of a proof over the present facts. The claims of the outermost ones are facts from here on.
pub fn take_proof(
    alloc: Global,
    store: &mut TermStore,
    state: &mut LegState,
    sorts: &[Sort],
    records: &[Items<Sort>],
    steps: &[ProofStep],
) -> Result<Asked, ItemEnd>
    requires over { IsOver (length sorts.now) store.old state.old }
    requires readable { AreReadableSteps (length sorts.now) (claim_steps.step_trees steps.now) }
    ensures asked { IfOk result (λ it. (place : ℕ) → to_accept place
        (base (map (map sort_type) records.now) (after_steps (map sort_type sorts.now) (state_of store.old state.old) (claim_steps.step_trees steps.now)))
        (step_terms (map sort_type sorts.now) (state_of store.old state.old) (claim_steps.step_trees steps.now)) ∷ []
        ≡ asked_at store.new place kinds.Deduce it) }
    ensures within { IfOk result (λ it. IsAskedWithin store.new it) }
    ensures state { OnOk result (state_of store.new state.new
        ≡ with_facts (outermost (step_terms (map sort_type sorts.now) (state_of store.old state.old) (claim_steps.step_trees steps.now)))
        (after_steps (map sort_type sorts.now) (state_of store.old state.old) (claim_steps.step_trees steps.now))) }
    ensures over { OnOk result (IsOver (length sorts.now) store.new state.new) }
    ensures small { OnOk result (are_small_steps
        (step_terms (map sort_type sorts.now) (state_of store.old state.old) (claim_steps.step_trees steps.now)) ≡ true) }
    ensures end { IfErr result (λ end. IsPast end (are_small_steps
        (step_terms (map sort_type sorts.now) (state_of store.old state.old) (claim_steps.step_trees steps.now)))) }
    ensures gains { GainsAmong store.old store.new (truth_literal true ∷ steps_subtrees
        (step_terms (map sort_type sorts.now) (state_of store.old state.old) (claim_steps.step_trees steps.now))) }
{
    match read_proof(alloc, store, state, sorts, steps) {
        Err(end) => Err(end),
        Ok((steps, claims)) => proof_over(steps, base_before(alloc, store, state, records, claims)),
    }
}

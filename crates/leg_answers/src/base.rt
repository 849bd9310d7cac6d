ghost use Rattle.std.specs.Prelude.{◌≡◌, map, IfOk};
ghost use Rattle.term_trees.specs.Term.{tree};
ghost use Rattle.term_store.specs.Store.{tree_at};
ghost use Rattle.validity.specs.Validity.{IsWellSorted};
ghost use Rattle.term_store.specs.Sequent.{sequent_at, IsSequentWithin};
ghost use Rattle.deduction_rules.specs.Deduction.{deduction};
ghost use Rattle.verdict_laws.specs.Rules.{refused_label};
ghost use Rattle.proof_closing.specs.Prover.{plain_sequent, IsCurrent, Leaves, stop_of};
ghost use Rattle.deduction.specs.Steps.{step_trees};
ghost use Rattle.deduction.specs.Checking.{AreSortedOver};

use crate::NoMemory;
use deduction::{CloseEnd, Prover};
use leg_sorts::{copy_records, copy_sorts};
use lk_terms::{Sequent, StepTerm, Term};
use owned_results::both;
use proof_answers::refused_step;
use sqlite_items::Items;
use std::alloc::Global;
use stored_trees::{term_at, terms_at};
use term_store::{IdSequent, TermStore};
use term_trees::Sort;

/// The sorts of the symbols and of the records.
fn sorts_of(
    alloc: Global,
    sequent: &IdSequent,
) -> Result<(Items<Sort>, Items<Items<Sort>>), NoMemory>
    ensures { IfOk result (λ p. (p.0 ≡ sequent.now.sorts) × (p.1 ≡ sequent.now.records)) }
{
    both(
        copy_sorts(alloc, sequent.sorts.as_slice()),
        copy_records(alloc, sequent.records.as_slice()),
    )
}

/// The facts and the goal.
fn claims_of(
    alloc: Global,
    store: &TermStore,
    sequent: &IdSequent,
) -> Result<(Items<Term>, Term), NoMemory>
    requires { IsSequentWithin store.now sequent.now }
    ensures { IfOk result (λ p. (map tree p.0 ≡ map (tree_at store.now) sequent.now.facts) × (tree p.1 ≡ tree_at store.now sequent.now.goal)) }
{
    both(
        terms_at(alloc, store, sequent.facts.as_slice()),
        term_at(alloc, store, sequent.goal),
    )
}

/// The sequent that numbers of the store stand for.
fn sequent_of(alloc: Global, store: &TermStore, sequent: &IdSequent) -> Result<Sequent, NoMemory>
    requires within { IsSequentWithin store.now sequent.now }
    requires sorted { IsWellSorted (sequent_at store.now sequent.now) }
    ensures { IfOk result (λ s. plain_sequent s ≡ sequent_at store.now sequent.now) }
{
    let ((sorts, records), (facts, goal)) = both(
        sorts_of(alloc, sequent),
        claims_of(alloc, store, sequent),
    )?;
    Ok(Sequent {
        sorts,
        records,
        facts,
        goal,
    })
}

/// The label of the first step that is refused over the facts of the base, where one is.
pub fn refused_over<P: Prover>(
    alloc: Global,
    store: &TermStore,
    base: &IdSequent,
    steps: &[StepTerm],
    prover: &mut P,
) -> Result<Option<u32>, CloseEnd>
    requires current { IsCurrent (P.work prover.old) }
    requires within { IsSequentWithin store.now base.now }
    requires sorted { IsWellSorted (sequent_at store.now base.now) }
    requires steps { AreSortedOver (sequent_at store.now base.now) (step_trees steps.now) }
    ensures label { IfOk result (λ label. label ≡ refused_label (deduction P.closes (sequent_at store.now base.now) (step_trees steps.now))) }
    ensures leaves { Leaves (P.work prover.old) (P.work prover.new) (stop_of result) }
{
    match sequent_of(alloc, store, base) {
        Ok(sequent) => refused_step(alloc, &sequent, steps, prover),
        Err(_) => Err(CloseEnd::NoMemory),
    }
}

ghost use Rattle.std.specs.Prelude.{◌≡◌, map, IfOk};
ghost use Rattle.term_trees.specs.Term.{tree};
ghost use Rattle.term_store.specs.Store.{Holds, Grows, AreTreesOf};
ghost use Rattle.term_store.specs.Sequent.{sequent_at, IsSequentWithin};
ghost use Rattle.proof_closing.specs.Prover.{plain_sequent};

use crate::NoMemory;
use leg_sorts::{copy_records, copy_sorts};
use lk_terms::{Sequent, Term};
use owned_results::all_three;
use sqlite_items::Items;
use std::alloc::Global;
use term_store::{IdSequent, TermStore};

/// The numbers of the terms, which are added where the store lacks them.
fn add_terms(alloc: Global, store: &mut TermStore, terms: &[Term]) -> Result<Items<usize>, NoMemory>
    ensures trees { IfOk result (λ ids. AreTreesOf store.new ids (map tree terms.now)) }
    ensures grows { Grows store.old store.new }
{
    let mut ids = Items::new(alloc);
    for place in 0..terms.len() {
        let id = store.add(&terms[place])?;
        ids.push(id)?;
    }
    Ok(ids)
}

/// The numbers of the facts and of the goal.
fn add_claims(
    alloc: Global,
    store: &mut TermStore,
    sequent: &Sequent,
) -> Result<(Items<usize>, usize), NoMemory>
    ensures facts { IfOk result (λ p. AreTreesOf store.new p.0 (map tree sequent.now.facts)) }
    ensures goal { IfOk result (λ p. Holds store.new p.1 (tree sequent.now.goal)) }
    ensures grows { Grows store.old store.new }
{
    let goal = store.add(&sequent.goal)?;
    let facts = add_terms(alloc, store, sequent.facts.as_slice())?;
    Ok((facts, goal))
}

/// The sequent over a store, to which the terms are added that it lacks.
pub fn stored_sequent(
    alloc: Global,
    store: &mut TermStore,
    sequent: &Sequent,
) -> Result<IdSequent, NoMemory>
    ensures same { IfOk result (λ ids. sequent_at store.new ids ≡ plain_sequent sequent.now) }
    ensures within { IfOk result (λ ids. IsSequentWithin store.new ids) }
    ensures grows { Grows store.old store.new }
{
    let (sorts, records, (facts, goal)) = all_three(
        copy_sorts(alloc, sequent.sorts.as_slice()),
        copy_records(alloc, sequent.records.as_slice()),
        add_claims(alloc, store, sequent),
    )?;
    Ok(IdSequent {
        sorts,
        records,
        facts,
        goal,
    })
}

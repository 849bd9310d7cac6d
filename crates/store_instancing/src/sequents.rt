ghost use Rattle.std.specs.Prelude.{◌≡◌, ℕ, ◌+◌, ◌<◌, ◌≤◌, ◌^◌, List, ◌++◌, length, IfOk, IfErr, OnOk};
ghost use Rattle.std.specs.List.{AllByRecursion};
ghost use Rattle.slang_values.specs.Measure.{node_count};
ghost use Rattle.instance_rules.specs.Instances.{new_facts, with_new_facts, instancing, instanced};
ghost use Rattle.term_store.specs.Store.{tree_at, Grows};
ghost use Rattle.term_store.specs.Sequent.{sequent_at, IsSequentWithin};
ghost use Rattle.store_openings.specs.Tables.{AreTables};
ghost use Rattle.store_instancing.specs.Instanced.{IsInstancedAs, IsEndOf};

use crate::NoMemory;
use crate::end::{InstEnd, Instanced};
use sqlite_items::Items;
use std::alloc::Global;
use store_instances::are_within_limits;
use store_new_facts::add_all_instances;
use store_openings::{Tables, open, take_facts_apart};
use store_places::index_terms;
use store_substitution::measure_depths;
use term_store::{IdSequent, TermStore};

/// Adds all instances of the quantified facts as facts. There is one round.
fn add_new_facts(
    alloc: Global,
    store: &mut TermStore,
    tables: &mut Tables,
    sequent: &mut IdSequent,
) -> Result<Instanced, NoMemory>
    requires within { IsSequentWithin store.old sequent.old }
    requires tables { AreTables store.old tables.old }
    ensures instanced { IfOk result (λ end. IsInstancedAs end (sequent_at store.new sequent.new) (with_new_facts (sequent_at store.old sequent.old) (new_facts (sequent_at store.old sequent.old)))) }
    ensures within { IsSequentWithin store.new sequent.new }
    ensures grows { Grows store.old store.new }
    ensures tables { AreTables store.new tables.new }
{
    measure_depths(store, &mut tables.depths)?;
    let terms = index_terms(alloc, store, tables.depths.as_slice(), sequent)?;
    let mut new = Items::new(alloc);
    let fits = add_all_instances(
        alloc,
        store,
        tables,
        terms.as_slice(),
        sequent.facts.as_slice(),
        &mut new,
    )?;
    if !fits {
        return Ok(Instanced::TooMany);
    }
    if !are_within_limits(store, new.as_slice()) {
        return Ok(Instanced::TooLarge);
    }
    push_all(&mut sequent.facts, new.as_slice())?;
    Ok(Instanced::Added)
}

/// Adds several facts, or some of them where there is no memory for all.
fn push_all(facts: &mut Items<usize>, new: &[usize]) -> Result<(), NoMemory>
    ensures all { OnOk result (facts.new ≡ facts.old ++ new.now) }
    ensures some { (top : ℕ) → AllByRecursion (λ k. k < top) facts.old → AllByRecursion (λ k. k < top) new.now → AllByRecursion (λ k. k < top) facts.new }
{
    for place in 0..new.len() {
        facts.push(new[place])?;
    }
    Ok(())
}

/// Opens the goal of a sequent, takes its facts apart, and adds the instances of its quantified facts.
pub fn add_instances(
    alloc: Global,
    store: &mut TermStore,
    tables: &mut Tables,
    sequent: &mut IdSequent,
) -> Result<(), InstEnd>
    requires within { IsSequentWithin store.old sequent.old }
    requires room { length sequent.old.sorts + node_count (tree_at store.old sequent.old.goal) ≤ 2 ^ 32 }
    requires tables { AreTables store.old tables.old }
    ensures ok { OnOk result (instancing (sequent_at store.old sequent.old) ≡ instanced (sequent_at store.new sequent.new)) }
    ensures err { IfErr result (λ end. IsEndOf end (instancing (sequent_at store.old sequent.old))) }
    ensures within { IsSequentWithin store.new sequent.new }
    ensures grows { Grows store.old store.new }
    ensures tables { AreTables store.new tables.new }
{
    match instance_prepared(alloc, store, tables, sequent)? {
        Instanced::Added => Ok(()),
        Instanced::TooMany => Err(InstEnd::Instances),
        Instanced::TooLarge => Err(InstEnd::Size),
    }
}

/// The same, with what comes of it.
fn instance_prepared(
    alloc: Global,
    store: &mut TermStore,
    tables: &mut Tables,
    sequent: &mut IdSequent,
) -> Result<Instanced, NoMemory>
    requires within { IsSequentWithin store.old sequent.old }
    requires room { length sequent.old.sorts + node_count (tree_at store.old sequent.old.goal) ≤ 2 ^ 32 }
    requires tables { AreTables store.old tables.old }
    ensures instanced { IfOk result (λ end. IsInstancedAs end (sequent_at store.new sequent.new) (instancing (sequent_at store.old sequent.old))) }
    ensures within { IsSequentWithin store.new sequent.new }
    ensures grows { Grows store.old store.new }
    ensures tables { AreTables store.new tables.new }
{
    open(alloc, store, tables, sequent)?;
    take_facts_apart(alloc, store, sequent)?;
    add_new_facts(alloc, store, tables, sequent)
}

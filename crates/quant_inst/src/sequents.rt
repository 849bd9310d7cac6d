ghost use Rattle.std.specs.Prelude.{◌≡◌, ◌+◌, ◌≤◌, ◌^◌, length, IfOk, IfErr};
ghost use Rattle.slang_values.specs.Measure.{node_count};
ghost use Rattle.instance_rules.specs.Instances.{instancing, instanced};
ghost use Rattle.term_store.specs.Store.{tree_at, Grows};
ghost use Rattle.term_store.specs.Sequent.{sequent_at, IsSequentWithin};
ghost use Rattle.store_openings.specs.Tables.{AreTables};
ghost use Rattle.store_instancing.specs.Instanced.{IsEndOf};

use crate::NoMemory;
use leg_sorts::{copy_records, copy_sorts};
use owned_results::all_three;
use sqlite_items::Items;
use std::alloc::Global;
use store_instancing::{InstEnd, add_instances};
use store_openings::Tables;
use term_store::{IdSequent, TermStore};

/// The same sequent.
fn copied(alloc: Global, sequent: &IdSequent) -> Result<IdSequent, NoMemory>
    ensures sorts { IfOk result (λ copy. copy.sorts ≡ sequent.now.sorts) }
    ensures records { IfOk result (λ copy. copy.records ≡ sequent.now.records) }
    ensures facts { IfOk result (λ copy. copy.facts ≡ sequent.now.facts) }
    ensures goal { IfOk result (λ copy. copy.goal ≡ sequent.now.goal) }
{
    let goal = sequent.goal;
    let (sorts, records, facts) = all_three(
        copy_sorts(alloc, sequent.sorts.as_slice()),
        copy_records(alloc, sequent.records.as_slice()),
        Items::from_slice(alloc, sequent.facts.as_slice()),
    )?;
    Ok(IdSequent {
        sorts,
        records,
        facts,
        goal,
    })
}

/// The sequent with its goal opened, its facts taken apart, and the instances of its quantified facts added as facts. What is
/// worked out of the store's terms is kept for further calls.
pub fn instances_with(
    alloc: Global,
    store: &mut TermStore,
    tables: &mut Tables,
    sequent: &IdSequent,
) -> Result<IdSequent, InstEnd>
    requires within { IsSequentWithin store.old sequent.now }
    requires room { length sequent.now.sorts + node_count (tree_at store.old sequent.now.goal) ≤ 2 ^ 32 }
    requires tables { AreTables store.old tables.old }
    ensures ok { IfOk result (λ made. instancing (sequent_at store.old sequent.now) ≡ instanced (sequent_at store.new made)) }
    ensures err { IfErr result (λ end. IsEndOf end (instancing (sequent_at store.old sequent.now))) }
    ensures within { IfOk result (λ made. IsSequentWithin store.new made) }
    ensures grows { Grows store.old store.new }
    ensures tables { AreTables store.new tables.new }
{
    let mut copy = copied(alloc, sequent)?;
    match add_instances(alloc, store, tables, &mut copy) {
        Ok(()) => Ok(copy),
        Err(end) => Err(end),
    }
}

/// The sequent with its goal opened, its facts taken apart, and the instances of its quantified facts added as facts.
pub fn instances_of(
    alloc: Global,
    store: &mut TermStore,
    sequent: &IdSequent,
) -> Result<IdSequent, InstEnd>
    requires within { IsSequentWithin store.old sequent.now }
    requires room { length sequent.now.sorts + node_count (tree_at store.old sequent.now.goal) ≤ 2 ^ 32 }
    ensures ok { IfOk result (λ made. instancing (sequent_at store.old sequent.now) ≡ instanced (sequent_at store.new made)) }
    ensures err { IfErr result (λ end. IsEndOf end (instancing (sequent_at store.old sequent.now))) }
    ensures within { IfOk result (λ made. IsSequentWithin store.new made) }
    ensures grows { Grows store.old store.new }
{
    let mut tables = Tables::new(alloc);
    instances_with(alloc, store, &mut tables, sequent)
}

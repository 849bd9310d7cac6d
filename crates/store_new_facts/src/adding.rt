ghost use Rattle.std.specs.Prelude.{◌≡◌, ℕ, ◌<◌, ◌≤◌, List, map, length, IfOk};
ghost use Rattle.std.specs.List.{flat_map};
ghost use Rattle.instance_rules.specs.Instances.{instance, instances_of, instance_limit};
ghost use Rattle.term_store.specs.Store.{tree_at, Grows, AreWithin};
ghost use Rattle.store_openings.specs.Tables.{AreTables};
ghost use Rattle.store_instances.specs.Added.{IsAddedTo};

use crate::NoMemory;
use sqlite_items::Items;
use std::alloc::Global;
use store_instances::{add_fact, instance};
use store_openings::{Range, Tables, range_at};
use term_store::TermStore;

/// Adds the instances of an All at these terms.
fn add_instances(
    alloc: Global,
    store: &mut TermStore,
    tables: &mut Tables,
    range: Range,
    terms: &[usize],
    facts: &[usize],
    new: &mut Items<usize>,
) -> Result<bool, NoMemory>
    requires low { range.low < length store.old }
    requires high { range.high < length store.old }
    requires body { range.body < length store.old }
    requires terms { AreWithin store.old terms.now }
    requires facts { AreWithin store.old facts.now }
    requires new { AreWithin store.old new.old }
    requires few { length new.old ≤ instance_limit }
    requires tables { AreTables store.old tables.old }
    ensures added { IfOk result (λ fits. IsAddedTo (map (tree_at store.old) facts.now) (map (tree_at store.old) new.old) (map (instance (tree_at store.old range.low) (tree_at store.old range.high) (tree_at store.old range.body)) (map (tree_at store.old) terms.now)) fits (map (tree_at store.new) new.new)) }
    ensures new { AreWithin store.new new.new }
    ensures few { length new.new ≤ instance_limit }
    ensures grows { Grows store.old store.new }
    ensures tables { AreTables store.new tables.new }
{
    for place in 0..terms.len() {
        let id = instance(alloc, store, tables, range, terms[place])?;
        if !add_fact(store, facts, new, id)? {
            return Ok(false);
        }
    }
    Ok(true)
}

/// Adds the instances of all facts that are an All.
pub fn add_all_instances(
    alloc: Global,
    store: &mut TermStore,
    tables: &mut Tables,
    terms: &[usize],
    facts: &[usize],
    new: &mut Items<usize>,
) -> Result<bool, NoMemory>
    requires terms { AreWithin store.old terms.now }
    requires facts { AreWithin store.old facts.now }
    requires new { AreWithin store.old new.old }
    requires few { length new.old ≤ instance_limit }
    requires tables { AreTables store.old tables.old }
    ensures added { IfOk result (λ fits. IsAddedTo (map (tree_at store.old) facts.now) (map (tree_at store.old) new.old) (flat_map (instances_of (map (tree_at store.old) terms.now)) (map (tree_at store.old) facts.now)) fits (map (tree_at store.new) new.new)) }
    ensures new { AreWithin store.new new.new }
    ensures few { length new.new ≤ instance_limit }
    ensures grows { Grows store.old store.new }
    ensures tables { AreTables store.new tables.new }
{
    for place in 0..facts.len() {
        if !add_instances_of(alloc, store, tables, facts[place], terms, facts, new)? {
            return Ok(false);
        }
    }
    Ok(true)
}

/// Adds the instances of one fact.
fn add_instances_of(
    alloc: Global,
    store: &mut TermStore,
    tables: &mut Tables,
    fact: usize,
    terms: &[usize],
    facts: &[usize],
    new: &mut Items<usize>,
) -> Result<bool, NoMemory>
    requires fact { fact < length store.old }
    requires terms { AreWithin store.old terms.now }
    requires facts { AreWithin store.old facts.now }
    requires new { AreWithin store.old new.old }
    requires few { length new.old ≤ instance_limit }
    requires tables { AreTables store.old tables.old }
    ensures added { IfOk result (λ fits. IsAddedTo (map (tree_at store.old) facts.now) (map (tree_at store.old) new.old) (instances_of (map (tree_at store.old) terms.now) (tree_at store.old fact)) fits (map (tree_at store.new) new.new)) }
    ensures new { AreWithin store.new new.new }
    ensures few { length new.new ≤ instance_limit }
    ensures grows { Grows store.old store.new }
    ensures tables { AreTables store.new tables.new }
{
    match range_at(store, fact) {
        Some(range) => add_instances(alloc, store, tables, range, terms, facts, new),
        None => Ok(true),
    }
}

ghost use Rattle.std.specs.Prelude.{◌≡◌, ◌==◌, ℕ, ◌<◌, ◌≤◌, List, [], ◌∷◌, ◌++◌, map, length, IfOk, OnOk};
ghost use Rattle.std.specs.List.{list_any};
ghost use Rattle.instance_rules.specs.Instances.{instance, instance_limit};
ghost use Rattle.term_store.specs.Store.{tree_at, Holds, Grows, AreWithin};
ghost use Rattle.store_openings.specs.Tables.{AreTables};
ghost use Rattle.store_instances.specs.Added.{IsAddedTo};

use crate::NoMemory;
use slang_values::Binary;
use sqlite_items::Items;
use std::alloc::Global;
use store_openings::{Range, Tables, substitute_first};
use store_reads::add_binary;
use term_store::TermStore;

/// More instances than these are too many.
const INSTANCE_LIMIT: usize = 64;

/// The number of the instance at a term.
pub fn instance(
    alloc: Global,
    store: &mut TermStore,
    tables: &mut Tables,
    range: Range,
    by: usize,
) -> Result<usize, NoMemory>
    requires low { range.low < length store.old }
    requires high { range.high < length store.old }
    requires body { range.body < length store.old }
    requires by { by < length store.old }
    requires tables { AreTables store.old tables.old }
    ensures number { IfOk result (λ k. Holds store.new k (instance (tree_at store.old range.low) (tree_at store.old range.high) (tree_at store.old range.body) (tree_at store.old by))) }
    ensures grows { Grows store.old store.new }
    ensures tables { AreTables store.new tables.new }
{
    let above = add_binary(store, Binary::Le, range.low, by)?;
    let below = add_binary(store, Binary::Lt, by, range.high)?;
    let inside = add_binary(store, Binary::And, above, below)?;
    let body = substitute_first(alloc, store, tables, range.body, by)?;
    add_binary(store, Binary::Imply, inside, body)
}

fn contains(ids: &[usize], id: usize) -> bool
    ensures { result ≡ list_any (λ k. k == id) ids.now }
{
    ids.iter().any(|k| *k == id)
}

/// Adds a fact, unless it is a fact or was added. Answers false where there would be too many.
pub fn add_fact(
    store: &TermStore,
    facts: &[usize],
    new: &mut Items<usize>,
    id: usize,
) -> Result<bool, NoMemory>
    requires facts { AreWithin store.now facts.now }
    requires new { AreWithin store.now new.old }
    requires id { id < length store.now }
    requires few { length new.old ≤ instance_limit }
    ensures added { IfOk result (λ fits. IsAddedTo (map (tree_at store.now) facts.now) (map (tree_at store.now) new.old) (tree_at store.now id ∷ []) fits (map (tree_at store.now) new.new)) }
    ensures new { AreWithin store.now new.new }
    ensures few { length new.new ≤ instance_limit }
{
    // No tree stands twice in a store, so a number tells a fact from the others.
    let _count = store.len();
    if contains(facts, id) {
        return Ok(true);
    }
    if contains(new.as_slice(), id) {
        return Ok(true);
    }
    if new.len() >= INSTANCE_LIMIT {
        return Ok(false);
    }
    new.push(id)?;
    Ok(true)
}

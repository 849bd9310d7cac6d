ghost use Rattle.std.specs.Prelude.{◌≡◌, ℕ, map, IfOk};
ghost use Rattle.slang_values.specs.Value.{Records, number_type, truth_type, sequence_type, record_type, fields};
ghost use Rattle.term_sorts.specs.Types.{record_types};
ghost use Rattle.term_trees.specs.Term.{sort_type};
ghost use Rattle.term_store.specs.Store.{Grows};
ghost use Rattle.store_alternatives.specs.Defaults.{Ends, AllEnd, IsDefaultAt, AreDefaultsAt};

use crate::NoMemory;
use sqlite_items::{Items, at};
use std::alloc::Global;
use store_reads::add;
use term_nodes::Node;
use term_store::TermStore;
use term_trees::Sort;

/// The sorts of a record's fields. A record that is not there has none.
pub fn fields_of(records: &[Items<Sort>], n: u32) -> &[Sort]
    ensures { map sort_type result.now ≡ fields (record_types records.now) n }
{
    match at(records, n as usize) {
        Some(fields) => fields.as_slice(),
        None => &[],
    }
}

/// The number of 0.
fn add_zero(store: &mut TermStore) -> Result<usize, NoMemory>
    ensures number { (records : Records) (depth : ℕ) → IfOk result (λ k. IsDefaultAt records depth store.new k number_type) }
    ensures grows { Grows store.old store.new }
{
    add(store, Node::Lit(0))
}

/// The number of `F`.
fn add_false(store: &mut TermStore) -> Result<usize, NoMemory>
    ensures number { (records : Records) (depth : ℕ) → IfOk result (λ k. IsDefaultAt records depth store.new k truth_type) }
    ensures grows { Grows store.old store.new }
{
    add(store, Node::False)
}

/// The number of the empty sequence of such elements.
fn empty_sequence(alloc: Global, store: &mut TermStore, element: &Sort) -> Result<usize, NoMemory>
    ensures number { (records : Records) (depth : ℕ) → IfOk result (λ k. IsDefaultAt records depth store.new k (sequence_type (sort_type element.now))) }
    ensures grows { Grows store.old store.new }
{
    let element = element.copy(alloc)?;
    add(store, Node::SeqLit(element, Items::new(alloc)))
}

/// The number of the default of a sort, whose records end within that many, one inside another.
#[cycle(defaults)]
#[tactic(auto, using(term_trees::proofs::Sorts::sort_lines))]
pub fn default_of(
    alloc: Global,
    store: &mut TermStore,
    records: &[Items<Sort>],
    sort: &Sort,
    depth: usize,
) -> Result<usize, NoMemory>
    requires { Ends (record_types records.now) depth (sort_type sort.now) }
    ensures number { IfOk result (λ k. IsDefaultAt (record_types records.now) depth store.new k (sort_type sort.now)) }
    ensures grows { Grows store.old store.new }
{
    match sort {
        Sort::Z => add_zero(store),
        Sort::B => add_false(store),
        Sort::Seq(element) => empty_sequence(alloc, store, element.get()),
        Sort::Rec(n) => default_record(alloc, store, records, *n, depth),
    }
}

/// The number of the default of a record.
#[cycle(defaults)]
fn default_record(
    alloc: Global,
    store: &mut TermStore,
    records: &[Items<Sort>],
    n: u32,
    depth: usize,
) -> Result<usize, NoMemory>
    requires { Ends (record_types records.now) depth (record_type n) }
    ensures number { IfOk result (λ k. IsDefaultAt (record_types records.now) depth store.new k (record_type n)) }
    ensures grows { Grows store.old store.new }
{
    let ids = defaults_of(alloc, store, records, fields_of(records, n), depth - 1)?;
    add(store, Node::Rec(n, ids))
}

/// The numbers of the defaults of some sorts.
#[cycle(defaults)]
fn defaults_of(
    alloc: Global,
    store: &mut TermStore,
    records: &[Items<Sort>],
    sorts: &[Sort],
    depth: usize,
) -> Result<Items<usize>, NoMemory>
    requires { AllEnd (record_types records.now) depth (map sort_type sorts.now) }
    ensures numbers { IfOk result (λ ks. AreDefaultsAt (record_types records.now) depth store.new ks (map sort_type sorts.now)) }
    ensures grows { Grows store.old store.new }
{
    let mut ids = Items::new(alloc);
    for sort in sorts {
        let id = default_of(alloc, store, records, sort, depth)?;
        ids.push(id)?;
    }
    Ok(ids)
}

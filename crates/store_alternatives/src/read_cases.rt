ghost use Rattle.std.specs.Prelude.{◌≡◌, ◌<◌, ◌++◌, [], ◌∷◌, List, map, length, true, IfOk, OnOk, IsSomeAnd};
ghost use Rattle.slang_values.specs.Value.{AreWellFormed, is_known};
ghost use Rattle.read_rules.specs.Reads.{update_cases as update_cases_trees, append_cases as append_cases_trees, element_cases as element_cases_trees, outside_cases, list_cases as list_cases_trees, default_tree, ReadCase, negation, read_tree, read_cases as read_cases_trees};
ghost use Rattle.term_sorts.specs.Types.{record_types};
ghost use Rattle.term_trees.specs.Term.{sort_type, trees_of};
ghost use Rattle.term_store.specs.Store.{tree_at, AreWithin, Grows};
ghost use Rattle.store_reads.specs.Written.{is_written_sequence};
ghost use Rattle.store_alternatives.specs.ReadCases.{AreCasesAt, HasKnownElements};

use crate::NoMemory;
use crate::conditions::{at_least, below_count, beside_size, equals_count, is_updated_place};
use crate::defaults::default_of;
use crate::written::{Written, how_written};
use slang_values::{Binary, Unary};
use sqlite_items::Items;
use std::alloc::Global;
use store_reads::{add_binary, add_unary};
use term_store::TermStore;
use term_trees::Sort;

/// A case of a read: its condition, and what the read is there.
#[derive(Clone, Copy)]
pub struct IdReadCase {
    pub condition: usize,
    pub instead: usize,
}

/// The two cases of a read that depends on one condition: where it holds, the read is that term.
fn two_cases(
    alloc: Global,
    store: &mut TermStore,
    condition: usize,
    instead: usize,
    sequence: usize,
    place: usize,
) -> Result<Items<IdReadCase>, NoMemory>
    requires condition { condition < length store.old }
    requires instead { instead < length store.old }
    requires sequence { sequence < length store.old }
    requires place { place < length store.old }
    ensures cases { IfOk result (λ cs. AreCasesAt store.new cs (record { conditions = tree_at store.old condition ∷ []; instead = tree_at store.old instead } ∷ record { conditions = negation (tree_at store.old condition) ∷ []; instead = read_tree (tree_at store.old sequence) (tree_at store.old place) } ∷ [])) }
    ensures grows { Grows store.old store.new }
{
    let denied = add_unary(store, Unary::Not, condition)?;
    let read = add_binary(store, Binary::Read, sequence, place)?;
    Items::from_slice(
        alloc,
        &[
            IdReadCase { condition, instead },
            IdReadCase {
                condition: denied,
                instead: read,
            },
        ],
    )
}

/// The cases of a read at a place, of a sequence updated at another.
fn update_cases(
    alloc: Global,
    store: &mut TermStore,
    a: usize,
    i: usize,
    v: usize,
    j: usize,
) -> Result<Items<IdReadCase>, NoMemory>
    requires sequence { a < length store.old }
    requires updated { i < length store.old }
    requires element { v < length store.old }
    requires place { j < length store.old }
    ensures cases { IfOk result (λ cs. AreCasesAt store.new cs (update_cases_trees (tree_at store.old a) (tree_at store.old i) (tree_at store.old v) (tree_at store.old j))) }
    ensures grows { Grows store.old store.new }
{
    let condition = is_updated_place(store, a, i, j)?;
    two_cases(alloc, store, condition, v, a, j)
}

/// The cases of a read of a sequence with one element more.
fn append_cases(
    alloc: Global,
    store: &mut TermStore,
    a: usize,
    v: usize,
    j: usize,
) -> Result<Items<IdReadCase>, NoMemory>
    requires sequence { a < length store.old }
    requires element { v < length store.old }
    requires place { j < length store.old }
    ensures cases { IfOk result (λ cs. AreCasesAt store.new cs (append_cases_trees (tree_at store.old a) (tree_at store.old v) (tree_at store.old j))) }
    ensures grows { Grows store.old store.new }
{
    let condition = beside_size(store, Binary::Eq, j, a)?;
    two_cases(alloc, store, condition, v, a, j)
}

/// The cases of a read of elements, at each of their places.
fn element_cases(
    alloc: Global,
    store: &mut TermStore,
    elements: &[usize],
    j: usize,
) -> Result<Items<IdReadCase>, NoMemory>
    requires elements { AreWithin store.old elements.now }
    requires place { j < length store.old }
    ensures cases { IfOk result (λ cs. AreCasesAt store.new cs (element_cases_trees 0 (trees_of (map (tree_at store.old) elements.now)) (tree_at store.old j))) }
    ensures grows { Grows store.old store.new }
{
    let mut cases = Items::new(alloc);
    for place in 0..elements.len() {
        let condition = equals_count(store, j, place)?;
        cases.push(IdReadCase {
            condition,
            instead: elements[place],
        })?;
    }
    Ok(cases)
}

/// Adds the cases of a read below the first element, and behind the last.
fn add_outside_cases(
    store: &mut TermStore,
    cases: &mut Items<IdReadCase>,
    count: usize,
    default: usize,
    j: usize,
) -> Result<(), NoMemory>
    requires default { default < length store.old }
    requires place { j < length store.old }
    ensures cases { OnOk result ((ds : List ReadCase) → AreCasesAt store.old cases.old ds → AreCasesAt store.new cases.new (ds ++ outside_cases count (tree_at store.old default) (tree_at store.old j))) }
    ensures grows { Grows store.old store.new }
{
    let below = below_count(store, j, 0)?;
    let behind = at_least(store, count, j)?;
    cases.push(IdReadCase {
        condition: below,
        instead: default,
    })?;
    cases.push(IdReadCase {
        condition: behind,
        instead: default,
    })
}

/// The cases of a read of a list of elements.
fn list_cases(
    alloc: Global,
    store: &mut TermStore,
    records: &[Items<Sort>],
    sort: &Sort,
    elements: &[usize],
    j: usize,
) -> Result<Items<IdReadCase>, NoMemory>
    requires records { AreWellFormed (record_types records.now) }
    requires known { is_known (record_types records.now) (sort_type sort.now) ≡ true }
    requires elements { AreWithin store.old elements.now }
    requires place { j < length store.old }
    ensures cases { IfOk result (λ cs. IsSomeAnd (list_cases_trees (trees_of (map (tree_at store.old) elements.now)) (default_tree (record_types records.now) (sort_type sort.now)) (tree_at store.old j)) (AreCasesAt store.new cs)) }
    ensures grows { Grows store.old store.new }
{
    let default = default_of(alloc, store, records, sort, records.len())?;
    let mut cases = element_cases(alloc, store, elements, j)?;
    add_outside_cases(store, &mut cases, elements.len(), default, j)?;
    Ok(cases)
}

/// The cases of a read of a sequence that is written out.
pub fn read_cases(
    alloc: Global,
    store: &mut TermStore,
    records: &[Items<Sort>],
    a: usize,
    j: usize,
) -> Result<Items<IdReadCase>, NoMemory>
    requires records { AreWellFormed (record_types records.now) }
    requires sequence { a < length store.old }
    requires place { j < length store.old }
    requires written { is_written_sequence (tree_at store.old a) ≡ true }
    requires known { HasKnownElements (record_types records.now) (tree_at store.old a) }
    ensures cases { IfOk result (λ cs. IsSomeAnd (read_cases_trees (record_types records.now) (tree_at store.old a) (tree_at store.old j)) (AreCasesAt store.new cs)) }
    ensures grows { Grows store.old store.new }
{
    match how_written(alloc, store, a)? {
        Written::Updated(s, i, v) => update_cases(alloc, store, s, i, v, j),
        Written::Appended(s, v) => append_cases(alloc, store, s, v, j),
        Written::Listed(sort, elements) => list_cases(
            alloc,
            store,
            records,
            &sort,
            elements.as_slice(),
            j,
        ),
        Written::Other => Ok(Items::new(alloc)),
    }
}

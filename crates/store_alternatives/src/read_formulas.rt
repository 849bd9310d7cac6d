ghost use Rattle.std.specs.Prelude.{◌≡◌, ◌<◌, map, length, true, IfOk};
ghost use Rattle.std.specs.Option.{option_map};
ghost use Rattle.slang_values.specs.Value.{AreWellFormed, truth_type};
ghost use Rattle.slang_values.specs.Typing.{IsTyped};
ghost use Rattle.read_rules.specs.Reads.{first_site};
ghost use Rattle.case_rules.specs.Cases.{site_alternatives, alternatives as alternatives_trees};
ghost use Rattle.term_sorts.specs.Types.{record_types, types_of};
ghost use Rattle.term_store.specs.Store.{tree_at, Grows};
ghost use Rattle.store_reads.specs.Written.{has_read};
ghost use Rattle.store_reads.specs.Marks.{AreMarked};
ghost use Rattle.store_alternatives.specs.Numbers.{AreAlternativesAt, AreFoundAt};
ghost use Rattle.store_alternatives.specs.ReadCases.{case_at, AreCasesWithin, AreListsOfCases};

use crate::NoMemory;
use crate::formulas::{is_literal, lists_of_top};
use crate::read_cases::{IdReadCase, read_cases};
use crate::written::parts_of_read;
use sqlite_items::Items;
use std::alloc::Global;
use store_formulas::top_of;
use store_reads::{Mark, first_read, with_read};
use term_store::{IdSequent, TermStore};

/// The alternatives of a literal, by the cases of its first read: each condition, and the literal with what the read then is.
fn lists_of_cases(
    alloc: Global,
    store: &mut TermStore,
    marks: &[Mark],
    id: usize,
    cases: &[IdReadCase],
) -> Result<Items<Items<usize>>, NoMemory>
    requires within { id < length marks.now }
    requires marked { AreMarked store.old marks.now }
    requires cases { AreCasesWithin store.old cases.now }
    ensures numbers { IfOk result (λ ls. AreListsOfCases store.new (tree_at store.old id) ls (map (case_at store.old) cases.now)) }
    ensures grows { Grows store.old store.new }
{
    let mut lists = Items::new(alloc);
    for case in cases {
        let literal = with_read(alloc, store, marks, id, case.instead)?;
        lists.push(Items::from_slice(alloc, &[case.condition, literal])?)?;
    }
    Ok(lists)
}

/// The alternatives of a formula that has a read, by its first.
fn lists_of_read(
    alloc: Global,
    store: &mut TermStore,
    marks: &[Mark],
    sequent: &IdSequent,
    id: usize,
) -> Result<Items<Items<usize>>, NoMemory>
    requires within { id < length marks.now }
    requires marked { AreMarked store.old marks.now }
    requires records { AreWellFormed (record_types sequent.now.records) }
    requires typed { IsTyped (record_types sequent.now.records) (types_of sequent.now.sorts) (tree_at store.old id) truth_type }
    requires read { has_read (tree_at store.old id) ≡ true }
    ensures numbers { IfOk result (λ found. AreAlternativesAt store.new found (option_map site_alternatives (first_site (record_types sequent.now.records) (tree_at store.old id)))) }
    ensures grows { Grows store.old store.new }
{
    let read = parts_of_read(store, first_read(store, marks, id));
    let cases = read_cases(
        alloc,
        store,
        sequent.records.as_slice(),
        read.sequence,
        read.place,
    )?;
    lists_of_cases(alloc, store, marks, id, cases.as_slice())
}

/// The alternatives that a formula has by its first read, where it has one.
fn alternatives_by_read(
    alloc: Global,
    store: &mut TermStore,
    marks: &[Mark],
    sequent: &IdSequent,
    id: usize,
) -> Result<Option<Items<Items<usize>>>, NoMemory>
    requires within { id < length marks.now }
    requires marked { AreMarked store.old marks.now }
    requires records { AreWellFormed (record_types sequent.now.records) }
    requires typed { IsTyped (record_types sequent.now.records) (types_of sequent.now.sorts) (tree_at store.old id) truth_type }
    ensures numbers { IfOk result (λ found. AreFoundAt store.new found (option_map site_alternatives (first_site (record_types sequent.now.records) (tree_at store.old id)))) }
    ensures grows { Grows store.old store.new }
{
    if marks[id].reads {
        Ok(Some(lists_of_read(alloc, store, marks, sequent, id)?))
    } else {
        Ok(None)
    }
}

/// The alternatives of a formula, each as the numbers of the formulas that hold together. A literal has none.
pub fn alternatives(
    alloc: Global,
    store: &mut TermStore,
    marks: &[Mark],
    sequent: &IdSequent,
    id: usize,
) -> Result<Option<Items<Items<usize>>>, NoMemory>
    requires within { id < length marks.now }
    requires marked { AreMarked store.old marks.now }
    requires records { AreWellFormed (record_types sequent.now.records) }
    requires typed { IsTyped (record_types sequent.now.records) (types_of sequent.now.sorts) (tree_at store.old id) truth_type }
    ensures numbers { IfOk result (λ found. AreFoundAt store.new found (alternatives_trees (record_types sequent.now.records) (types_of sequent.now.sorts) (tree_at store.old id))) }
    ensures grows { Grows store.old store.new }
{
    let records = sequent.records.as_slice();
    let top = top_of(sequent.sorts.as_slice(), records, store, id);
    if is_literal(top) {
        alternatives_by_read(alloc, store, marks, sequent, id)
    } else {
        Ok(Some(lists_of_top(alloc, store, records, top)?))
    }
}

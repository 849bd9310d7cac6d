ghost use Rattle.std.specs.Prelude.{◌≡◌, ◌<◌, ◌≤◌, length, map, slice_index_or, IfOk, true, false};
ghost use Rattle.std.specs.List.{All, list_all};
ghost use Rattle.lin_rows.specs.Inequality.{is_within};
ghost use Rattle.tree_forms.specs.Form.{is_narrow};
ghost use Rattle.term_sorts.specs.Types.{types_of, record_types};
ghost use Rattle.term_store.specs.Store.{tree_at, AreWithin, Grows};
ghost use Rattle.store_entries.specs.Entries.{IsEntryOf, AreEntries};
ghost use Rattle.closing.specs.Literals.{are_all_narrow};
ghost use Rattle.whole_closing.specs.Literals as literal_specs;
ghost use Rattle.whole_closing.specs.Closing.{by_ending, closing_of_case};
ghost use Rattle.elimination.specs.Elimination.{elimination};
ghost use Rattle.lin_solve.specs.Answers.{IsAnswer};
ghost use Rattle.store_leaves.specs.Workings.{AreWorkings};
ghost use Rattle.store_leaves.specs.Ends.{IsLeafEnd};
ghost use Rattle.store_leaves.specs.Closes.{ClosesLeaf, IsProofOfRows};

use crate::end::LeafEnd;
use crate::found::{closed_by_literals, proof_by_literals};
use crate::proof::LeafProof;
use crate::work::Workings;
use lin_cert::accepts;
use lin_rows::Row;
use lin_solve::{Solved, solve};
use sqlite_items::Items;
use std::alloc::Global;
use store_entries::Entry;
use store_rows::rows_of_case;
use term_store::TermStore;
use term_trees::Sort;

/// Closes the case of these literals, or says why it is not closed. What it works out for that is added to the workings, and what
/// this is made of to the store.
pub fn close_leaf(
    alloc: Global,
    symbols: &[Sort],
    records: &[Items<Sort>],
    store: &mut TermStore,
    work: &mut Workings,
    literals: &[usize],
) -> Result<LeafProof, LeafEnd>
    requires within { AreWithin store.old literals.now }
    requires work { AreWorkings (record_types records.now) (types_of symbols.now) store.old work.old }
    ensures end { IsLeafEnd (closing_of_case (record_types records.now) (types_of symbols.now) (map (tree_at store.old) literals.now)) result }
    ensures proof { IfOk result (ClosesLeaf (record_types records.now) (types_of symbols.now) (map (tree_at store.old) literals.now)) }
    ensures grows { Grows store.old store.new }
    ensures work { AreWorkings (record_types records.now) (types_of symbols.now) store.new work.new }
{
    let count = bound_of(store, literals);
    match work.work_out(alloc, symbols, records, store, count) {
        Ok(()) => close_formed_leaf(alloc, symbols, records, store, work, literals),
        Err(_) => Err(LeafEnd::NoMemory),
    }
}

/// One more than the greatest of the numbers.
fn bound_of(store: &TermStore, literals: &[usize]) -> usize
    requires { AreWithin store.now literals.now }
    ensures above { All (λ k. k < result) literals.now }
    ensures within { result ≤ length store.now }
{
    let mut bound = 0;
    let count = store.len();
    for at in 0..literals.len() {
        let literal = id_there(literals, at);
        let next = above(bound, literal, count);
        bound = next;
    }
    bound
}

/// The bound, or the next one that is above the number.
fn above(bound: usize, id: usize, count: usize) -> usize
    requires number { id < count }
    requires bound { bound ≤ count }
    ensures above { id < result }
    ensures kept { bound ≤ result }
    ensures within { result ≤ count }
{
    if bound <= id { id + 1 } else { bound }
}

/// Closes the case of literals whose forms and canonical trees are known.
fn close_formed_leaf(
    alloc: Global,
    symbols: &[Sort],
    records: &[Items<Sort>],
    store: &mut TermStore,
    work: &mut Workings,
    literals: &[usize],
) -> Result<LeafProof, LeafEnd>
    requires formed { All (λ k. k < length work.old.forms.entries.items) literals.now }
    requires known { All (λ k. k < length work.old.canonical.ids.items) literals.now }
    requires within { AreWithin store.old literals.now }
    requires work { AreWorkings (record_types records.now) (types_of symbols.now) store.old work.old }
    ensures end { IsLeafEnd (closing_of_case (record_types records.now) (types_of symbols.now) (map (tree_at store.old) literals.now)) result }
    ensures proof { IfOk result (ClosesLeaf (record_types records.now) (types_of symbols.now) (map (tree_at store.old) literals.now)) }
    ensures grows { Grows store.old store.new }
    ensures work { AreWorkings (record_types records.now) (types_of symbols.now) store.new work.new }
{
    match closed_by_literals(
        symbols,
        records,
        store,
        work.canonical.ids.as_slice(),
        literals,
    ) {
        Some(found) => proof_by_literals(found),
        None => close_by_rows(alloc, symbols, records, store, work, literals),
    }
}

/// Closes the case of literals that do not close it as they stand.
fn close_by_rows(
    alloc: Global,
    symbols: &[Sort],
    records: &[Items<Sort>],
    store: &mut TermStore,
    work: &mut Workings,
    literals: &[usize],
) -> Result<LeafProof, LeafEnd>
    requires formed { All (λ k. k < length work.old.forms.entries.items) literals.now }
    requires work { AreWorkings (record_types records.now) (types_of symbols.now) store.old work.old }
    requires left { literal_specs.closed_by_literals (record_types records.now) (types_of symbols.now) (map (tree_at store.old) literals.now) ≡ false }
    ensures end { IsLeafEnd (closing_of_case (record_types records.now) (types_of symbols.now) (map (tree_at store.old) literals.now)) result }
    ensures proof { IfOk result (ClosesLeaf (record_types records.now) (types_of symbols.now) (map (tree_at store.old) literals.now)) }
    ensures grows { Grows store.old store.new }
    ensures work { AreWorkings (record_types records.now) (types_of symbols.now) store.new work.new }
{
    if !are_narrow(store, work.forms.entries.as_slice(), literals) {
        return Err(LeafEnd::Wide);
    }
    match rows_of_case(alloc, symbols, records, store, &mut work.forms, literals) {
        Ok(rows) => eliminated(alloc, rows.as_slice()),
        Err(end) => Err(LeafEnd::from(end)),
    }
}

/// Whether each of the terms has a form, as has each part of it.
fn are_narrow(store: &TermStore, entries: &[Entry], ids: &[usize]) -> bool
    requires entries { AreEntries store.now entries.now }
    requires formed { All (λ k. k < length entries.now) ids.now }
    ensures { result ≡ are_all_narrow (map (tree_at store.now) ids.now) }
{
    for at in 0..ids.len() {
        let id = id_there(ids, at);
        if !has_form(store, &entries[id], id) {
            return false;
        }
    }
    true
}

fn id_there(ids: &[usize], at: usize) -> usize
    requires { at < length ids.now }
    ensures { result ≡ slice_index_or ids.now at result }
{
    ids[at]
}

/// `store` and `id` stand in the contract alone.
fn has_form(store: &TermStore, entry: &Entry, id: usize) -> bool
    requires { IsEntryOf store.now (tree_at store.now id) entry.now }
    ensures { result ≡ is_narrow (tree_at store.now id) }
{
    match entry {
        Entry::Form(_) => true,
        Entry::Wide => false,
    }
}

/// Closes the rows, or says how their elimination ends else.
fn eliminated(alloc: Global, rows: &[Row]) -> Result<LeafProof, LeafEnd>
    requires { list_all is_within rows.now ≡ true }
    ensures end { IsLeafEnd (by_ending (elimination rows.now)) result }
    ensures proof { IfOk result (IsProofOfRows rows.now) }
{
    match solve(alloc, rows) {
        Ok(solved) => believed(rows, solved),
        Err(end) => Err(LeafEnd::from(end)),
    }
}

/// Takes the answer for these rows, wherever it is from. Closed is believed only where its certificate is accepted.
fn believed(rows: &[Row], solved: Solved) -> Result<LeafProof, LeafEnd>
    ensures end { IsAnswer rows.now solved → IsLeafEnd (by_ending (elimination rows.now)) result }
    ensures proof { IfOk result (IsProofOfRows rows.now) }
{
    match solved {
        Solved::Closed(cert) => {
            if accepts(rows, &cert) {
                Ok(LeafProof::Cert(cert))
            } else {
                Err(LeafEnd::Open)
            }
        }
        Solved::Open => Err(LeafEnd::Open),
    }
}

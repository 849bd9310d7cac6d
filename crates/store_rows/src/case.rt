ghost use Rattle.std.specs.Prelude.{◌≡◌, ◌<◌, [], length, IfOk, IsErrOf, map, true, false};
ghost use Rattle.std.specs.List.{All, AllByRecursion, list_all};
ghost use Rattle.term_sorts.specs.Types.{types_of, record_types};
ghost use Rattle.term_store.specs.Store.{tree_at, Grows};
ghost use Rattle.lin_rows.specs.Inequality.{is_within, IsCanonical};
ghost use Rattle.store_entries.specs.Entries.{AreEntries};
ghost use Rattle.store_atoms.specs.Views.{rows_at};
ghost use Rattle.store_atoms.specs.Atoms.{done_trees};
ghost use Rattle.store_atoms.specs.Systems.{IsInStep};
ghost use Rattle.closing.specs.Literals.{are_all_narrow};
ghost use Rattle.closing.specs.Rows as row_specs;
ghost use Rattle.store_atoms.specs.declared.end.RowsEnd.TheVariants.{Wide};
ghost use Rattle.store_rows.specs.Complete.{HaveNarrowAtoms, AreSettled};

use crate::complete::complete;
use crate::literals::rows_of_literals;
use lin_rows::Row;
use sqlite_items::Items;
use std::alloc::Global;
use store_atoms::{RowsEnd, System};
use store_linear::FormTable;
use term_store::TermStore;
use term_trees::Sort;

/// The rows of a case of these literals, whose forms are known. Wide where a row has a number beyond 2^60, and only there. Forms
/// that are wanting for the atoms are found, and what they are made of is added to the store.
pub fn rows_of_case(
    alloc: Global,
    symbols: &[Sort],
    records: &[Items<Sort>],
    store: &mut TermStore,
    forms: &mut FormTable,
    literals: &[usize],
) -> Result<Vec<Row>, RowsEnd>
    requires entries { AreEntries store.old forms.old.entries.items }
    requires formed { All (λ k. k < length forms.old.entries.items) literals.now }
    requires narrow { are_all_narrow (map (tree_at store.old) literals.now) ≡ true }
    ensures rows { IfOk result
        (λ it. it.items ≡ row_specs.rows_of_case (record_types records.now) (types_of symbols.now) (map (tree_at store.old) literals.now)) }
    ensures within { IfOk result (λ it. list_all is_within it.items ≡ true) }
    ensures wide { IsErrOf result Wide → list_all is_within
        (row_specs.rows_of_case (record_types records.now) (types_of symbols.now) (map (tree_at store.old) literals.now)) ≡ false }
    ensures entries { AreEntries store.new forms.new.entries.items }
    ensures grows { Grows store.old store.new }
{
    let rows = rows_of_literals(
        alloc,
        symbols,
        records,
        store,
        forms.entries.as_slice(),
        literals,
    )?;
    let mut system = System::of(alloc, store, rows)?;
    completed_rows(alloc, store, forms, &mut system)
}

/// The rows of a system with those of its atoms, and with the atoms numbered.
fn completed_rows(
    alloc: Global,
    store: &mut TermStore,
    forms: &mut FormTable,
    system: &mut System,
) -> Result<Vec<Row>, RowsEnd>
    requires entries { AreEntries store.old forms.old.entries.items }
    requires in_step { IsInStep store.old system.old }
    requires narrow { HaveNarrowAtoms (rows_at store.old system.old.rows.items) }
    requires settled { AreSettled (rows_at store.old system.old.rows.items) }
    requires fresh { done_trees store.old system.old.atoms.items ≡ [] }
    requires canonical { AllByRecursion (λ row. IsCanonical row.parts)
        (row_specs.numbered_rows (row_specs.completed (rows_at store.old system.old.rows.items))) }
    ensures rows { IfOk result (λ it. it.items ≡ row_specs.numbered_rows (row_specs.completed (rows_at store.old system.old.rows.items))) }
    ensures within { IfOk result (λ it. list_all is_within it.items ≡ true) }
    ensures wide { IsErrOf result Wide
        → list_all is_within (row_specs.numbered_rows (row_specs.completed (rows_at store.old system.old.rows.items))) ≡ false }
    ensures entries { AreEntries store.new forms.new.entries.items }
    ensures grows { Grows store.old store.new }
{
    complete(alloc, store, forms, system)?;
    system.numbered_rows(alloc, store)
}

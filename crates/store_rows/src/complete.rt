ghost use Rattle.std.specs.Prelude.{◌≡◌, ◌<◌, ◌&&◌, not, [], length, Some, slice_index_or, OnOk};
ghost use Rattle.term_store.specs.Store.{tree_at, Grows};
ghost use Rattle.store_entries.specs.Entries.{AreEntries};
ghost use Rattle.store_atoms.specs.Views.{rows_at};
ghost use Rattle.store_atoms.specs.Atoms.{done_trees};
ghost use Rattle.store_atoms.specs.Systems.{IsInStep};
ghost use Rattle.closing.specs.Rows as row_specs;
ghost use Rattle.store_rows.specs.Complete.{HaveNarrowAtoms, AreSettled, IsNext, IsFormedBelow, IsStep};

use crate::NoMemory;
use crate::known::{has_rows, push_rows_of_atom};
use std::alloc::Global;
use store_atoms::{Atom, System};
use store_linear::FormTable;
use term_store::TermStore;

/// Adds the rows of the atoms of which something is known, the least first, also of those that come with them.
pub fn complete(
    alloc: Global,
    store: &mut TermStore,
    forms: &mut FormTable,
    system: &mut System,
) -> Result<(), NoMemory>
    requires entries { AreEntries store.old forms.old.entries.items }
    requires in_step { IsInStep store.old system.old }
    requires narrow { HaveNarrowAtoms (rows_at store.old system.old.rows.items) }
    requires settled { AreSettled (rows_at store.old system.old.rows.items) }
    requires fresh { done_trees store.old system.old.atoms.items ≡ [] }
    ensures rows { OnOk result (rows_at store.new system.new.rows.items ≡ row_specs.completed (rows_at store.old system.old.rows.items)) }
    ensures in_step { OnOk result (IsInStep store.new system.new) }
    ensures entries { AreEntries store.new forms.new.entries.items }
    ensures grows { Grows store.old store.new }
{
    'atoms: while let Some(place) = next(store, system) {
        add_rows_of(alloc, store, forms, system, place)?;
    }
    Ok(())
}

/// The least atom that has rows which are not there.
fn next(store: &TermStore, system: &System) -> Option<usize>
    requires { IsInStep store.now system.now }
    ensures { IsNext store.now system.now result }
{
    for place in 0..system.atoms.len() {
        let atom = atom_at(system, place);
        if is_pending(store, atom) {
            return Some(place);
        }
    }
    None
}

fn atom_at(system: &System, place: usize) -> Atom
    requires { place < length system.now.atoms.items }
    ensures { result ≡ slice_index_or system.now.atoms.items place result }
{
    system.atoms[place]
}

/// Whether something is known of the atom, and its rows are not there.
fn is_pending(store: &TermStore, atom: Atom) -> bool
    requires { atom.id < length store.now }
    ensures { result ≡ (not atom.is_done && row_specs.has_rows (row_specs.rows_of_atom (tree_at store.now atom.id))) }
{
    !atom.is_done && has_rows(store, atom.id)
}

/// Adds the rows of the atom at a place. The forms of what stands before it are found first.
fn add_rows_of(
    alloc: Global,
    store: &mut TermStore,
    forms: &mut FormTable,
    system: &mut System,
    place: usize,
) -> Result<(), NoMemory>
    requires entries { AreEntries store.old forms.old.entries.items }
    requires in_step { IsInStep store.old system.old }
    requires narrow { HaveNarrowAtoms (rows_at store.old system.old.rows.items) }
    requires next { IsNext store.old system.old (Some place) }
    ensures step { OnOk result (IsStep store.new system.old system.new) }
    ensures entries { AreEntries store.new forms.new.entries.items }
    ensures grows { Grows store.old store.new }
{
    let atom = atom_at(system, place);
    forms.work_out(alloc, store, atom.id)?;
    add_formed_rows(alloc, store, forms, system, place)
}

/// Adds the rows of the atom at a place, where the forms of what stands before it are known.
fn add_formed_rows(
    alloc: Global,
    store: &TermStore,
    forms: &FormTable,
    system: &mut System,
    place: usize,
) -> Result<(), NoMemory>
    requires entries { AreEntries store.now forms.now.entries.items }
    requires formed { IsFormedBelow system.old place (length forms.now.entries.items) }
    requires in_step { IsInStep store.now system.old }
    requires narrow { HaveNarrowAtoms (rows_at store.now system.old.rows.items) }
    requires next { IsNext store.now system.old (Some place) }
    ensures { OnOk result (IsStep store.now system.old system.new) }
{
    let atom = atom_at(system, place);
    let mut rows = Vec::new(alloc);
    push_rows_of_atom(alloc, store, forms.entries.as_slice(), atom.id, &mut rows)?;
    system.atoms[place].is_done = true;
    system.add(store, rows)?;
    Ok(())
}

ghost use Rattle.std.specs.Prelude.{◌≡◌, ◌<◌, ◌≤◌, length, slice_get, Some, map, IfOk};
ghost use Rattle.std.specs.List.{AllByRecursion};
ghost use Rattle.term_store.specs.Store.{tree_at, Grows};
ghost use Rattle.store_entries.specs.Entries.{IsEntryOf, AreEntries};
ghost use Rattle.store_linear.specs.Entries.{AreTerms, IsAtomAlone, IsOverTerms};

use crate::NoMemory;
use node_parts::{over_parts, parts_of};
use std::alloc::Global;
use store_entries::Entry;
use store_forms::{IdForm, form_term};
use store_reads::add;
use term_store::TermStore;

/// Of a node that no form takes apart: it is an atom, in which each part is the term of its form.
pub fn entry_of_atom(
    alloc: Global,
    store: &mut TermStore,
    entries: &[Entry],
    id: usize,
) -> Result<Entry, NoMemory>
    requires entries { AreEntries store.old entries.now }
    requires next { id ≤ length entries.now }
    requires within { id < length store.old }
    requires alone { IsAtomAlone (tree_at store.old id) }
    ensures entry { IfOk result (IsEntryOf store.new (tree_at store.old id)) }
    ensures grows { Grows store.old store.new }
{
    let parts = parts_of(alloc, store.view(id))?;
    match terms_of(alloc, store, entries, parts.as_slice())? {
        None => Ok(Entry::Wide),
        Some(ids) => atom_over(alloc, store, id, ids.as_slice()),
    }
}

/// The atom with the term's operator over these parts.
fn atom_over(
    alloc: Global,
    store: &mut TermStore,
    id: usize,
    ids: &[usize],
) -> Result<Entry, NoMemory>
    requires within { id < length store.old }
    requires alone { IsAtomAlone (tree_at store.old id) }
    requires terms { IsOverTerms store.old id ids.now }
    ensures entry { IfOk result (IsEntryOf store.new (tree_at store.old id)) }
    ensures grows { Grows store.old store.new }
{
    let node = over_parts(alloc, store.view(id), ids)?;
    let atom = add(store, node)?;
    Ok(Entry::Form(IdForm::of_atom(alloc, atom)?))
}

/// The terms of the forms, or none where one of these is Wide.
fn terms_of(
    alloc: Global,
    store: &mut TermStore,
    entries: &[Entry],
    ids: &[usize],
) -> Result<Option<Vec<usize>>, NoMemory>
    requires entries { AreEntries store.old entries.now }
    requires within { AllByRecursion (λ k. k < length entries.now) ids.now }
    ensures terms { IfOk result (AreTerms store.new (map (tree_at store.old) ids.now)) }
    ensures grows { Grows store.old store.new }
{
    let mut terms = Vec::new(alloc);
    for at in 0..ids.len() {
        let id = id_there(ids, at);
        match &entries[id] {
            Entry::Wide => return Ok(None),
            Entry::Form(form) => {
                let term = form_term(store, form)?;
                terms.push(term)?;
            }
        }
    }
    Ok(Some(terms))
}

fn id_there(ids: &[usize], at: usize) -> usize
    requires { at < length ids.now }
    ensures { slice_get ids.now at ≡ Some result }
{
    ids[at]
}

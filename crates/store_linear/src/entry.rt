ghost use Rattle.std.specs.Prelude.{◌≡◌, ◌<◌, length, List, IfOk};
ghost use Rattle.slang_values.specs.Tree.{literal, unary, binary};
ghost use Rattle.term_nodes.specs.declared.node.Node.{Node};
ghost use Rattle.term_store.specs.Store.{tree_at, Grows};
ghost use Rattle.store_entries.specs.Entries.{HasForm, IsEntryOf, AreEntries};
ghost use Rattle.store_linear.specs.Entries.{IsNarrowed};

use crate::NoMemory;
use slang_values::{Binary, Unary};
use std::alloc::Global;
use store_entries::Entry;
use store_forms::{IdForm, binary_form, unary_form};
use term_store::TermStore;

/// The form itself, where each number is within 2^60.
fn narrowed(form: IdForm) -> Entry
    ensures { IsNarrowed form result }
{
    if form.has_small_numbers() {
        Entry::Form(form)
    } else {
        Entry::Wide
    }
}

/// Of a literal.
pub fn entry_of_literal(alloc: Global, z: i128) -> Entry
    ensures { (store : List Node) → IsEntryOf store (literal z) result }
{
    narrowed(IdForm::of_constant(alloc, z))
}

/// Of a node over that part.
pub fn entry_of_unary(
    alloc: Global,
    store: &mut TermStore,
    entries: &[Entry],
    op: Unary,
    a: usize,
) -> Result<Entry, NoMemory>
    requires entries { AreEntries store.old entries.now }
    requires part { a < length entries.now }
    ensures entry { IfOk result (IsEntryOf store.new (unary op (tree_at store.old a))) }
    ensures grows { Grows store.old store.new }
{
    match &entries[a] {
        Entry::Form(form) => {
            let whole = unary_form(alloc, store, op, form)?;
            Ok(narrowed(whole))
        }
        Entry::Wide => Ok(Entry::Wide),
    }
}

/// Of a node over those parts.
pub fn entry_of_binary(
    alloc: Global,
    store: &mut TermStore,
    entries: &[Entry],
    op: Binary,
    a: usize,
    b: usize,
) -> Result<Entry, NoMemory>
    requires entries { AreEntries store.old entries.now }
    requires left { a < length entries.now }
    requires right { b < length entries.now }
    ensures entry { IfOk result (IsEntryOf store.new (binary op (tree_at store.old a) (tree_at store.old b))) }
    ensures grows { Grows store.old store.new }
{
    match &entries[a] {
        Entry::Form(left) => entry_beside(alloc, store, entries, op, a, left, b),
        Entry::Wide => Ok(Entry::Wide),
    }
}

/// Of a node over those parts, of which the left one has this form.
fn entry_beside(
    alloc: Global,
    store: &mut TermStore,
    entries: &[Entry],
    op: Binary,
    a: usize,
    left: &IdForm,
    b: usize,
) -> Result<Entry, NoMemory>
    requires entries { AreEntries store.old entries.now }
    requires left { HasForm store.old (tree_at store.old a) left.now }
    requires right { b < length entries.now }
    ensures entry { IfOk result (IsEntryOf store.new (binary op (tree_at store.old a) (tree_at store.old b))) }
    ensures grows { Grows store.old store.new }
{
    match &entries[b] {
        Entry::Form(right) => {
            let whole = binary_form(alloc, store, op, left, right)?;
            Ok(narrowed(whole))
        }
        Entry::Wide => Ok(Entry::Wide),
    }
}

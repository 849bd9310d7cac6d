ghost use Rattle.std.specs.Prelude.{◌≡◌, ◌<◌, ◌≤◌, length, map, get_or, false, IfOk};
ghost use Rattle.std.specs.List.{All};
ghost use Rattle.slang_values.specs.Value.{number_type, same_type};
ghost use Rattle.slang_values.specs.Typing.{type_of as type_of_tree};
ghost use Rattle.tree_forms.specs.Canonical as canonical;
ghost use Rattle.term_sorts.specs.Types.{types_of, record_types};
ghost use Rattle.term_store.specs.Store.{tree_at, Holds, Grows};
ghost use Rattle.store_entries.specs.Entries.{AreEntries, IsEntryOf};
ghost use Rattle.store_canonical.specs.Canonical.{AreCanonical};

use crate::NoMemory;
use node_parts::{over_parts, parts_of};
use sqlite_items::Items;
use std::alloc::Global;
use store_entries::Entry;
use store_forms::form_term;
use store_formulas::type_of;
use store_reads::add;
use term_store::TermStore;
use term_trees::Sort;

/// The number of the canonical tree of a term, after those below it.
pub fn canonical_of(
    alloc: Global,
    symbols: &[Sort],
    records: &[Items<Sort>],
    store: &mut TermStore,
    entries: &[Entry],
    ids: &[usize],
    id: usize,
) -> Result<usize, NoMemory>
    requires entries { AreEntries store.old entries.now }
    requires canonical { AreCanonical (record_types records.now) (types_of symbols.now) store.old ids.now }
    requires formed { id < length entries.now }
    requires next { id ≤ length ids.now }
    ensures number { IfOk result (λ k. Holds store.new k (canonical.canonical (record_types records.now) (types_of symbols.now) (tree_at store.old id))) }
    ensures grows { Grows store.old store.new }
{
    if is_number(symbols, records, store, id) {
        canonical_number(store, entries, id)
    } else {
        with_canonical_parts(alloc, symbols, records, store, ids, id)
    }
}

fn is_number(symbols: &[Sort], records: &[Items<Sort>], store: &TermStore, id: usize) -> bool
    requires { id < length store.now }
    ensures { result ≡ same_type (type_of_tree (record_types records.now) (types_of symbols.now) (tree_at store.now id)) number_type }
{
    type_of(symbols, records, store, id).is_number()
}

/// The term of the number's form, or itself where it has none.
fn canonical_number(store: &mut TermStore, entries: &[Entry], id: usize) -> Result<usize, NoMemory>
    requires entries { AreEntries store.old entries.now }
    requires formed { id < length entries.now }
    ensures number { IfOk result (λ k. Holds store.new k (canonical.canonical_number (tree_at store.old id))) }
    ensures grows { Grows store.old store.new }
{
    number_of_entry(store, &entries[id], id)
}

fn number_of_entry(store: &mut TermStore, entry: &Entry, id: usize) -> Result<usize, NoMemory>
    requires entry { IsEntryOf store.old (tree_at store.old id) entry.now }
    requires within { id < length store.old }
    ensures number { IfOk result (λ k. Holds store.new k (canonical.canonical_number (tree_at store.old id))) }
    ensures grows { Grows store.old store.new }
{
    match entry {
        Entry::Form(form) => form_term(store, form),
        Entry::Wide => Ok(id),
    }
}

/// The term with the canonical trees of its parts.
fn with_canonical_parts(
    alloc: Global,
    symbols: &[Sort],
    records: &[Items<Sort>],
    store: &mut TermStore,
    ids: &[usize],
    id: usize,
) -> Result<usize, NoMemory>
    requires canonical { AreCanonical (record_types records.now) (types_of symbols.now) store.old ids.now }
    requires next { id ≤ length ids.now }
    requires within { id < length store.old }
    requires other { same_type (type_of_tree (record_types records.now) (types_of symbols.now) (tree_at store.old id)) number_type ≡ false }
    ensures number { IfOk result (λ k. Holds store.new k (canonical.canonical (record_types records.now) (types_of symbols.now) (tree_at store.old id))) }
    ensures grows { Grows store.old store.new }
{
    let parts = parts_of(alloc, store.view(id))?;
    let numbers = canonical_parts(alloc, ids, parts.as_slice())?;
    let node = over_parts(alloc, store.view(id), numbers.as_slice())?;
    add(store, node)
}

/// The numbers at these places.
fn canonical_parts(alloc: Global, ids: &[usize], parts: &[usize]) -> Result<Vec<usize>, NoMemory>
    requires { All (λ k. k < length ids.now) parts.now }
    ensures { IfOk result (λ v. v.items ≡ map (λ k. get_or ids.now k 0) parts.now) }
{
    let mut numbers = Vec::new(alloc);
    for part in parts {
        numbers.push(ids[*part])?;
    }
    Ok(numbers)
}

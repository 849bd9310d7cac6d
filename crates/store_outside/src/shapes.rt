ghost use Rattle.std.specs.Prelude.{◌≡◌, ◌<◌, ◌≤◌, length, map};
ghost use Rattle.std.specs.List.{All, list_all};
ghost use Rattle.slang_values.specs.Value.{number_type, same_type};
ghost use Rattle.slang_values.specs.Typing.{type_of as type_of_tree};
ghost use Rattle.tree_forms.specs.Form as forms;
ghost use Rattle.closing.specs.Literals as literals;
ghost use Rattle.term_sorts.specs.Types.{types_of, record_types};
ghost use Rattle.term_store.specs.Store.{tree_at};
ghost use Rattle.store_entries.specs.Entries.{AreEntries, IsEntryOf};
ghost use Rattle.store_outside.specs.Outside.{AreNarrowOutside};

use sqlite_items::Items;
use store_entries::Entry;
use store_formulas::type_of;
use term_nodes::NodeShape;
use term_store::TermStore;
use term_trees::Sort;

/// The answer for a term, after those below it.
#[tactic(auto, using(crate::proofs::ByShape::outside_lines))]
pub fn is_narrow_outside(
    symbols: &[Sort],
    records: &[Items<Sort>],
    store: &TermStore,
    entries: &[Entry],
    narrow: &[bool],
    id: usize,
) -> bool
    requires entries { AreEntries store.now entries.now }
    requires narrow { AreNarrowOutside (record_types records.now) (types_of symbols.now) store.now narrow.now }
    requires formed { id < length entries.now }
    requires next { id ≤ length narrow.now }
    ensures { result ≡ literals.is_narrow_outside (record_types records.now) (types_of symbols.now) (tree_at store.now id) }
{
    match store.view(id).shape() {
        NodeShape::Literal(_) => is_narrow(store, entries, id),
        NodeShape::Truth(_) | NodeShape::Symbol(_) | NodeShape::Bound(_) => true,
        NodeShape::Unary(_, a) => {
            if is_number(symbols, records, store, id) {
                return is_narrow(store, entries, id);
            }
            answer_for(symbols, records, store, narrow, a)
        }
        NodeShape::Binary(_, a, b) => {
            if is_number(symbols, records, store, id) {
                return is_narrow(store, entries, id);
            }
            answer_for(symbols, records, store, narrow, a)
                && answer_for(symbols, records, store, narrow, b)
        }
        NodeShape::Update(a, i, x) => {
            answer_for(symbols, records, store, narrow, a)
                && answer_for(symbols, records, store, narrow, i)
                && answer_for(symbols, records, store, narrow, x)
        }
        NodeShape::Quantified(_, low, high, _) => {
            answer_for(symbols, records, store, narrow, low)
                && answer_for(symbols, records, store, narrow, high)
        }
        NodeShape::Sequence(_, parts) => answer_for_all(symbols, records, store, narrow, parts),
        NodeShape::Record(_, parts) => answer_for_all(symbols, records, store, narrow, parts),
    }
}

fn is_number(symbols: &[Sort], records: &[Items<Sort>], store: &TermStore, id: usize) -> bool
    requires { id < length store.now }
    ensures { result ≡ same_type (type_of_tree (record_types records.now) (types_of symbols.now) (tree_at store.now id)) number_type }
{
    type_of(symbols, records, store, id).is_number()
}

/// Whether the term has a form.
fn is_narrow(store: &TermStore, entries: &[Entry], id: usize) -> bool
    requires entries { AreEntries store.now entries.now }
    requires formed { id < length entries.now }
    ensures { result ≡ forms.is_narrow (tree_at store.now id) }
{
    has_form(store, &entries[id], id)
}

fn has_form(store: &TermStore, entry: &Entry, id: usize) -> bool
    requires { IsEntryOf store.now (tree_at store.now id) entry.now }
    ensures { result ≡ forms.is_narrow (tree_at store.now id) }
{
    match entry {
        Entry::Form(_) => true,
        Entry::Wide => false,
    }
}

/// The answer that was found for the term.
fn answer_for(
    symbols: &[Sort],
    records: &[Items<Sort>],
    store: &TermStore,
    narrow: &[bool],
    id: usize,
) -> bool
    requires narrow { AreNarrowOutside (record_types records.now) (types_of symbols.now) store.now narrow.now }
    requires within { id < length narrow.now }
    ensures { result ≡ literals.is_narrow_outside (record_types records.now) (types_of symbols.now) (tree_at store.now id) }
{
    narrow[id]
}

/// Whether that is true for each of the terms.
fn answer_for_all(
    symbols: &[Sort],
    records: &[Items<Sort>],
    store: &TermStore,
    narrow: &[bool],
    ids: &[usize],
) -> bool
    requires narrow { AreNarrowOutside (record_types records.now) (types_of symbols.now) store.now narrow.now }
    requires within { All (λ k. k < length narrow.now) ids.now }
    ensures { result ≡ list_all (literals.is_narrow_outside (record_types records.now) (types_of symbols.now)) (map (tree_at store.now) ids.now) }
{
    for id in ids {
        if !answer_for(symbols, records, store, narrow, *id) {
            return false;
        }
    }
    true
}

ghost use Rattle.std.specs.Prelude.{◌≡◌, ℕ, ◌<◌, length, map, MatchOption, true, false};
ghost use Rattle.std.specs.List.{All, list_any};
ghost use Rattle.closing.specs.Literals as literal_specs;
ghost use Rattle.term_sorts.specs.Types.{types_of, record_types};
ghost use Rattle.term_store.specs.Store.{tree_at, IsStore, AreWithin};
ghost use Rattle.store_canonical.specs.Canonical.{AreCanonical};
ghost use Rattle.store_literals.specs.Places.{IsFalseAt, AreOppositesAt};

use crate::negations::is_false;
use crate::pairs::opposite_of;
use sqlite_items::Items;
use term_store::TermStore;
use term_trees::Sort;

/// The place of the first literal that is false.
pub fn false_literal(store: &TermStore, literals: &[usize]) -> Option<usize>
    requires { AreWithin store.now literals.now }
    ensures { MatchOption result (list_any literal_specs.is_false (map (tree_at store.now) literals.now) ≡ false) (IsFalseAt store.now literals.now) }
{
    for place in 0..literals.len() {
        if is_false(store, literals[place]) {
            return Some(place);
        }
    }
    None
}

/// The places of a literal and of its negation, but for the forms of their numbers.
pub fn opposites(
    symbols: &[Sort],
    records: &[Items<Sort>],
    store: &TermStore,
    ids: &[usize],
    literals: &[usize],
) -> Option<(usize, usize)>
    requires is_store { IsStore store.now }
    requires canonical { AreCanonical (record_types records.now) (types_of symbols.now) store.now ids.now }
    requires formed { All (λ k. k < length ids.now) literals.now }
    ensures { MatchOption result
        (list_any (λ s. list_any (literal_specs.is_opposite (record_types records.now) (types_of symbols.now) s)
        (map (tree_at store.now) literals.now)) (map (tree_at store.now) literals.now) ≡ false)
        (λ places. AreOppositesAt (record_types records.now) (types_of symbols.now) store.now literals.now places.0 places.1) }
{
    for second in 0..literals.len() {
        match opposite_of(symbols, records, store, ids, literals, second) {
            Some(first) => return Some((first, second)),
            None => {}
        }
    }
    None
}

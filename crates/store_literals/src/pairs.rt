ghost use Rattle.std.specs.Prelude.{◌≡◌, ℕ, ◌<◌, ◌≢◌, length, get_or, MatchOption, true, false};
ghost use Rattle.std.specs.List.{All};
ghost use Rattle.closing.specs.Literals as literal_specs;
ghost use Rattle.term_sorts.specs.Types.{types_of, record_types};
ghost use Rattle.term_store.specs.Store.{IsStore, AreWithin};
ghost use Rattle.store_canonical.specs.Canonical.{AreCanonical};
ghost use Rattle.store_literals.specs.Places.{literal_at};

use crate::negations::denied_by;
use sqlite_items::Items;
use term_store::TermStore;
use term_trees::Sort;

/// The first place of the numbers that has this canonical number.
pub fn place_with(ids: &[usize], literals: &[usize], number: usize) -> Option<usize>
    requires { All (λ k. k < length ids.now) literals.now }
    ensures { MatchOption result ((k : ℕ) → k < length literals.now → get_or ids.now (get_or literals.now k 0) 0 ≢ number)
        (λ place. (place < length literals.now) × (get_or ids.now (get_or literals.now place 0) 0 ≡ number)) }
{
    for place in 0..literals.len() {
        if ids[literals[place]] == number {
            return Some(place);
        }
    }
    None
}

/// The first literal of which the one at this place is the negation.
pub fn opposite_of(
    symbols: &[Sort],
    records: &[Items<Sort>],
    store: &TermStore,
    ids: &[usize],
    literals: &[usize],
    place: usize,
) -> Option<usize>
    requires is_store { IsStore store.now }
    requires canonical { AreCanonical (record_types records.now) (types_of symbols.now) store.now ids.now }
    requires formed { All (λ k. k < length ids.now) literals.now }
    requires within { place < length literals.now }
    ensures { MatchOption result
        ((k : ℕ) → k < length literals.now
        → literal_specs.is_opposite (record_types records.now) (types_of symbols.now)
        (literal_at store.now literals.now k) (literal_at store.now literals.now place) ≡ false)
        (λ other. (other < length literals.now)
        × (literal_specs.is_opposite (record_types records.now) (types_of symbols.now)
        (literal_at store.now literals.now other) (literal_at store.now literals.now place) ≡ true)) }
{
    match denied_by(store, literals[place]) {
        Some(a) => place_with(ids, literals, ids[a]),
        None => None,
    }
}

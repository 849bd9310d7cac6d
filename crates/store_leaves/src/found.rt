ghost use Rattle.std.specs.Prelude.{◌≡◌, ◌<◌, ℕ, List, length, map, MatchOption, IfOk, false};
ghost use Rattle.std.specs.List.{All};
ghost use Rattle.slang_values.specs.Value.{Records};
ghost use Rattle.slang_values.specs.Tree.{Tree};
ghost use Rattle.slang_values.specs.Typing.{NameTypes};
ghost use Rattle.term_sorts.specs.Types.{types_of, record_types};
ghost use Rattle.term_store.specs.Store.{tree_at, AreWithin, IsStore};
ghost use Rattle.store_canonical.specs.Canonical.{AreCanonical};
ghost use Rattle.whole_closing.specs.Literals as literal_specs;
ghost use Rattle.whole_closing.specs.Closing.{closing_of_case};
ghost use Rattle.store_leaves.specs.Ends.{IsLeafEnd};
ghost use Rattle.store_leaves.specs.Closes.{ClosesLeaf, IsFoundIn, is_closed_otherwise, has_opposites};

use crate::apart::unequal_itself;
use crate::end::LeafEnd;
use crate::proof::LeafProof;
use sqlite_items::Items;
use store_literals::{false_literal, opposites};
use term_store::TermStore;
use term_trees::Sort;

/// Literals that close a case as they stand, by their places in it.
#[derive(Clone, Copy)]
pub enum Found {
    False(usize),
    Pair(usize, usize),
}

/// Literals that close the case as they stand.
pub fn closed_by_literals(
    symbols: &[Sort],
    records: &[Items<Sort>],
    store: &TermStore,
    ids: &[usize],
    literals: &[usize],
) -> Option<Found>
    requires canonical { AreCanonical (record_types records.now) (types_of symbols.now) store.now ids.now }
    requires formed { All (λ k. k < length ids.now) literals.now }
    requires within { AreWithin store.now literals.now }
    ensures { MatchOption result
        (literal_specs.closed_by_literals (record_types records.now) (types_of symbols.now) (map (tree_at store.now) literals.now) ≡ false)
        (IsFoundIn (record_types records.now) (types_of symbols.now) (map (tree_at store.now) literals.now)) }
{
    match false_literal(store, literals) {
        Some(place) => Some(Found::False(place)),
        None => closed_otherwise(symbols, records, store, ids, literals),
    }
}

/// A literal that says that a sequence is unequal to itself, or two that are opposites.
fn closed_otherwise(
    symbols: &[Sort],
    records: &[Items<Sort>],
    store: &TermStore,
    ids: &[usize],
    literals: &[usize],
) -> Option<Found>
    requires canonical { AreCanonical (record_types records.now) (types_of symbols.now) store.now ids.now }
    requires formed { All (λ k. k < length ids.now) literals.now }
    ensures { MatchOption result
        (is_closed_otherwise (record_types records.now) (types_of symbols.now) (map (tree_at store.now) literals.now) ≡ false)
        (IsFoundIn (record_types records.now) (types_of symbols.now) (map (tree_at store.now) literals.now)) }
{
    let _count = store.len();
    match unequal_itself(symbols, records, store, ids, literals) {
        Some(place) => Some(Found::False(place)),
        None => pair_of_opposites(symbols, records, store, ids, literals),
    }
}

/// Two literals that are opposites.
fn pair_of_opposites(
    symbols: &[Sort],
    records: &[Items<Sort>],
    store: &TermStore,
    ids: &[usize],
    literals: &[usize],
) -> Option<Found>
    requires is_store { IsStore store.now }
    requires canonical { AreCanonical (record_types records.now) (types_of symbols.now) store.now ids.now }
    requires formed { All (λ k. k < length ids.now) literals.now }
    ensures { MatchOption result
        (has_opposites (record_types records.now) (types_of symbols.now) (map (tree_at store.now) literals.now) ≡ false)
        (IsFoundIn (record_types records.now) (types_of symbols.now) (map (tree_at store.now) literals.now)) }
{
    match opposites(symbols, records, store, ids, literals) {
        Some(places) => Some(Found::Pair(places.0, places.1)),
        None => None,
    }
}

/// The proof by these literals. It is refused where a place has more than 32 bits.
pub fn proof_by_literals(found: Found) -> Result<LeafProof, LeafEnd>
    ensures end { (records : Records) (types : NameTypes ℕ) (leaf : List (Tree ℕ)) → IsFoundIn records types leaf found
        → IsLeafEnd (closing_of_case records types leaf) result }
    ensures proof { (records : Records) (types : NameTypes ℕ) (leaf : List (Tree ℕ)) → IsFoundIn records types leaf found
        → IfOk result (ClosesLeaf records types leaf) }
{
    match found {
        Found::False(place) => {
            if place > u32::MAX as usize {
                return Err(LeafEnd::NoMemory);
            }
            Ok(LeafProof::False(place as u32))
        }
        Found::Pair(first, second) => {
            if first > u32::MAX as usize || second > u32::MAX as usize {
                return Err(LeafEnd::NoMemory);
            }
            Ok(LeafProof::Pair(first as u32, second as u32))
        }
    }
}

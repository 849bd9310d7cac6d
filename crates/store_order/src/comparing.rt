ghost use Rattle.std.specs.Prelude.{◌≡◌, ◌<◌, length};
ghost use Rattle.tree_forms.specs.Order.{tree_cmp};
ghost use Rattle.term_store.specs.Store.{tree_at, IsStore};
ghost use Rattle.store_order.specs.Compared.{IsComparedAs};

use crate::heads::compare_tops;
use crate::parts::first_difference;
use std::cmp::Ordering;
use term_store::TermStore;

/// What one look at two terms tells.
pub enum Compared {
    Decided(Ordering),
    /// They compare as these parts of theirs do.
    AsParts(usize, usize),
}

/// The order of terms: by kind, then by the number or the sort in the node, then the one with fewer parts first, then by the
/// parts from the left. Equal numbers are equal terms, so parts that both have are not gone into.
pub fn compare(store: &TermStore, a: usize, b: usize) -> Ordering
    requires a { a < length store.now }
    requires b { b < length store.now }
    ensures { result ≡ tree_cmp (tree_at store.now a) (tree_at store.now b) }
{
    let count = store.len();
    prove!(a < count);
    let mut left = a;
    let mut right = b;
    'down: loop {
        match compare_once(store, left, right) {
            Compared::Decided(order) => return order,
            Compared::AsParts(l, r) => {
                left = l;
                right = r;
            }
        }
    }
}

/// Decides by the nodes alone, or finds the parts that decide.
fn compare_once(store: &TermStore, a: usize, b: usize) -> Compared
    requires is_store { IsStore store.now }
    requires a { a < length store.now }
    requires b { b < length store.now }
    ensures { IsComparedAs store.now a b result }
{
    if a == b {
        return Compared::Decided(Ordering::Equal);
    }
    let left = store.view(a).shape();
    let right = store.view(b).shape();
    match compare_tops(left, right) {
        Ordering::Equal => match first_difference(left, right) {
            Some(parts) => Compared::AsParts(parts.0, parts.1),
            None => Compared::Decided(Ordering::Equal),
        },
        Ordering::Less => Compared::Decided(Ordering::Less),
        Ordering::Greater => Compared::Decided(Ordering::Greater),
    }
}

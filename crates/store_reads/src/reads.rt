ghost use Rattle.std.specs.Prelude.{◌≡◌, ◌<◌, length, IfOk};
ghost use Rattle.term_store.specs.Store.{tree_at, Grows, Holds};
ghost use Rattle.store_reads.specs.Written.{IsFirstRead};
ghost use Rattle.store_reads.specs.Marks.{AreMarked, HoldsWithRead};

use crate::NoMemory;
use crate::adding::add;
use crate::marks::{Mark, part_with_read};
use crate::nodes::with_part;
use std::alloc::Global;
use term_store::TermStore;

/// The number of the first read in a term that depends on conditions. Of a term that has none, its own number.
pub fn first_read(store: &TermStore, marks: &[Mark], id: usize) -> usize
    requires within { id < length marks.now }
    requires marked { AreMarked store.now marks.now }
    ensures within { result < length store.now }
    ensures read { IsFirstRead (tree_at store.now id) (tree_at store.now result) }
{
    match part_with_read(store, marks, id) {
        Some(part) => first_read(store, marks, part.id),
        None => id,
    }
}

/// The number of the term with another term in place of that read. Of a term that has none, the number of the other.
pub fn with_read(
    alloc: Global,
    store: &mut TermStore,
    marks: &[Mark],
    id: usize,
    by: usize,
) -> Result<usize, NoMemory>
    requires within { id < length marks.now }
    requires by { by < length store.old }
    requires marked { AreMarked store.old marks.now }
    ensures number { IfOk result (λ k. HoldsWithRead store.new k (tree_at store.old by) (tree_at store.old id)) }
    ensures grows { Grows store.old store.new }
{
    match part_with_read(store, marks, id) {
        Some(part) => {
            let number = with_read(alloc, store, marks, part.id, by)?;
            let node = with_part(alloc, store.view(id), part.place, number)?;
            add(store, node)
        }
        None => Ok(by),
    }
}

use sqlite_items::Items;
use term_trees::Sort;

/// A sequent whose facts and goal are numbers of a store.
#[derive(Drop)]
pub struct IdSequent {
    pub sorts: Items<Sort>,
    pub records: Items<Items<Sort>>,
    pub facts: Items<usize>,
    pub goal: usize,
}

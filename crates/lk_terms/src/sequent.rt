ghost use Rattle.lk_terms.specs.Validity.{sequent_tree, IsWellSorted};
ghost use Rattle.lk_terms.specs.OneProof.{IsWellSorted-prop};

use sqlite_items::Items;
use term_trees::{Sort, Term};

/// Facts, and a goal that is to follow from them, over symbols of these sorts and records whose fields have these sorts.
///
/// It is well sorted: the facts and the goal are claims without loose bound variables, each symbol and each record in them
/// is there, and no record holds itself or has more than 1,000 parts.
#[derive(Drop)]
pub struct Sequent {
    pub sorts: Items<Sort>,
    pub records: Items<Items<Sort>>,
    pub facts: Items<Term>,
    pub goal: Term,
    pub ghost well_sorted: { IsWellSorted (sequent_tree sorts records facts goal) } by { IsWellSorted-prop (sequent_tree sorts records facts goal) },
}

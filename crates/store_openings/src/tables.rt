ghost use Rattle.std.specs.Prelude.{◌≡◌, ◌<◌, List, length, IfOk};
ghost use Rattle.lk_terms.specs.Substitution.{substituted};
ghost use Rattle.term_nodes.specs.declared.node.Node.{Node};
ghost use Rattle.term_store.specs.Store.{tree_at, Holds, Grows};
ghost use Rattle.store_openings.specs.Tables.{AreTables};

use crate::NoMemory;
use sqlite_items::Items;
use std::alloc::Global;
use store_substitution::{Substitutions, measure_depths, substitute};
use term_store::TermStore;

/// What was worked out of the terms of a store: the depths that they need, and substitutions in them.
#[derive(Drop)]
pub struct Tables {
    pub depths: Items<u64>,
    pub substitutions: Substitutions,
}

impl Tables {
    pub fn new(alloc: Global) -> Tables
        ensures { (store : List Node) → AreTables store result }
    {
        Tables {
            depths: Items::new(alloc),
            substitutions: Substitutions::new(alloc),
        }
    }
}

/// The number of the term with another in place of its bound variable 0.
pub fn substitute_first(
    alloc: Global,
    store: &mut TermStore,
    tables: &mut Tables,
    id: usize,
    by: usize,
) -> Result<usize, NoMemory>
    requires within { id < length store.old }
    requires by { by < length store.old }
    requires tables { AreTables store.old tables.old }
    ensures number { IfOk result (λ k. Holds store.new k (substituted 0 (tree_at store.old by) (tree_at store.old id))) }
    ensures grows { Grows store.old store.new }
    ensures tables { AreTables store.new tables.new }
{
    measure_depths(store, &mut tables.depths)?;
    substitute(
        alloc,
        store,
        tables.depths.as_slice(),
        &mut tables.substitutions,
        id,
        0,
        by,
    )
}

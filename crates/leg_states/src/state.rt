ghost use Rattle.std.specs.Prelude.{◌≡◌, List, IfOk, OnOk};
ghost use Rattle.term_nodes.specs.declared.node.Node.{Node};
ghost use Rattle.leg_rules.specs.Store.{start};

use crate::NoMemory;
use crate::versions::{Versions, all_unset};
use sqlite_items::Items;
use std::alloc::Global;
use std::collections::BTreeMap;
use term_trees::Sort;

/// What stands at a place of a leg. Terms are numbers of a store.
#[derive(Drop)]
pub struct LegState {
    /// The sorts of the symbols that have been taken, by number.
    pub sorts: Items<Sort>,
    /// Of each variable the terms that it has had, one for each version that has one. The last version is the present one.
    pub versions: Versions,
    /// The symbols of the blocks of proofs, by label.
    pub lets: BTreeMap<u32, u32>,
    pub facts: Items<usize>,
}

impl LegState {
    ghost use Rattle.leg_states.specs.State.{state_of, IsOver};

    /// The start of a leg over so many variables.
    pub fn new(alloc: Global, count: usize) -> Result<LegState, NoMemory>
        ensures start { IfOk result (λ state. (store : List Node) → state_of store state ≡ start) }
        ensures over { IfOk result (λ state. (store : List Node) → IsOver count store state) }
    {
        Ok(LegState {
            sorts: Items::new(alloc),
            versions: all_unset(alloc, count)?,
            lets: BTreeMap::new(alloc),
            facts: Items::new(alloc),
        })
    }
}

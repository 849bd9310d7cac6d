ghost use Rattle.std.specs.Prelude.{◌≡◌, ◌<◌, List, ℕ, map, length, IfOk};
ghost use Rattle.term_trees.specs.Term.{sort_type};
ghost use Rattle.term_nodes.specs.declared.node.Node.{Node};
ghost use Rattle.term_store.specs.Store.{tree_at};
ghost use Rattle.term_store.specs.Sequent.{sequent_at, IsSequentWithin};
ghost use Rattle.leg_rules.specs.Sequents.{sequent};
ghost use Rattle.leg_states.specs.State.{state_of, IsOver};

use crate::NoMemory;
use leg_sorts::{copy_records, copy_sorts};
use leg_states::LegState;
use owned_results::all_three;
use sqlite_items::Items;
use std::alloc::Global;
use term_store::IdSequent;
use term_trees::Sort;

/// The present facts and the goal, over the symbols that have been taken.
pub fn sequent_over(
    alloc: Global,
    state: &LegState,
    records: &[Items<Sort>],
    goal: usize,
) -> Result<IdSequent, NoMemory>
    ensures sequent { IfOk result (λ it. (store : List Node) →
        sequent_at store it ≡ sequent (map (map sort_type) records.now) (state_of store state.now) (tree_at store goal)) }
    ensures within { IfOk result (λ it. (count : ℕ) (store : List Node) → IsOver count store state.now → goal < length store → IsSequentWithin store it) }
{
    let (sorts, records, facts) = all_three(
        copy_sorts(alloc, state.sorts.as_slice()),
        copy_records(alloc, records),
        Items::from_slice(alloc, state.facts.as_slice()),
    )?;
    Ok(IdSequent {
        sorts,
        records,
        facts,
        goal,
    })
}

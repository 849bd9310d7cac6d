ghost use Rattle.std.specs.Prelude.{◌≡◌, ◌<◌, [], ◌∷◌, ℕ, Bool, List, suc, nat_eq, map, length, get_or, if◌then◌else◌, OnOk};
ghost use Rattle.std.specs.List.{All};
ghost use Rattle.std.specs.Set.{is_member};
ghost use Rattle.slang_values.specs.Tree.{Tree, name as name_tree};
ghost use Rattle.term_trees.specs.Term.{sort_type};
ghost use Rattle.term_nodes.specs.declared.node.Node.{Node};
ghost use Rattle.term_store.specs.Store.{Holds, tree_at, GainsAmong};
ghost use Rattle.leg_rules.specs.Store.{set_variable, make_fresh, take_let, with_fact};
ghost use Rattle.leg_rules.specs.Sequents.{begin_block};

use crate::NoMemory;
use crate::reading::number;
use crate::state::LegState;
use crate::versions::{begin_version, last_version, push_version};
use std::alloc::Global;
use std::collections::BTreeSet;
use term_store::TermStore;
use term_trees::Sort;

impl LegState {
    ghost use Rattle.leg_states.specs.State.{state_of, IsOver, HaveVersions, lists_of, with_versions_of, taken_by_each};

    /// The term is a fact from here on.
    pub fn add_fact(&mut self, id: usize) -> Result<(), NoMemory>
        ensures state { OnOk result ((store : List Node) → state_of store self.new ≡ with_fact (tree_at store id) (state_of store self.old)) }
        ensures over { OnOk result ((count : ℕ) (store : List Node) → IsOver count store self.old → id < length store → IsOver count store self.new) }
    {
        self.facts.push(id)
    }

    /// The variable has the term from here on.
    pub fn set_variable(&mut self, x: u32, id: usize) -> Result<(), NoMemory>
        requires variable { x < length (lists_of self.old.versions) }
        requires present { 0 < length (get_or (lists_of self.old.versions) x []) }
        ensures state { OnOk result ((store : List Node) → state_of store self.new ≡ set_variable x (tree_at store id) (state_of store self.old)) }
        ensures over { OnOk result ((count : ℕ) (store : List Node) → IsOver count store self.old → id < length store → IsOver count store self.new) }
    {
        push_version(&mut self.versions, x as usize, Some(id))
    }

    /// A block with a symbol of its own begins.
    pub fn begin_block(&mut self, has_symbol: bool, label: u32) -> Result<(), NoMemory>
        ensures state { OnOk result ((store : List Node) → state_of store self.new ≡ begin_block has_symbol label (state_of store self.old)) }
        ensures over { OnOk result ((count : ℕ) (store : List Node) → IsOver count store self.old → IsOver count store self.new) }
    {
        if has_symbol {
            let symbol = number(self.sorts.len())?;
            self.sorts.push(Sort::Z)?;
            self.lets.insert(label, symbol)?;
        }
        Ok(())
    }

    /// Each of the variables has one version more, which has no term yet.
    fn begin_versions(&mut self, alloc: Global, count: usize, xs: &[u32]) -> Result<(), NoMemory>
        requires versions { HaveVersions count (lists_of self.old.versions) }
        requires variables { All (λ x. x < count) xs.now }
        ensures state { OnOk result ((store : List Node) → state_of store self.new ≡ with_versions_of xs.now (state_of store self.old)) }
        ensures over { OnOk result ((store : List Node) → IsOver count store self.old → IsOver count store self.new) }
        ensures sorts { self.new.sorts ≡ self.old.sorts }
    {
        let mut seen = BTreeSet::new(alloc);
        for x in xs {
            let is_new = seen.insert(*x)?;
            begin_version(&mut self.versions, *x as usize, is_new)?;
        }
        Ok(())
    }

    /// Each of the variables takes a new symbol, in order.
    pub fn make_fresh(
        &mut self,
        alloc: Global,
        store: &mut TermStore,
        sorts: &[Sort],
        xs: &[u32],
    ) -> Result<(), NoMemory>
        requires over { IsOver (length sorts.now) store.old self.old }
        requires variables { All (λ x. x < length sorts.now) xs.now }
        ensures state { OnOk result (state_of store.new self.new ≡ make_fresh (map sort_type sorts.now) xs.now (state_of store.old self.old)) }
        ensures over { OnOk result (IsOver (length sorts.now) store.new self.new) }
        ensures gains { GainsAmong store.old store.new (taken_by_each xs.now (length self.old.sorts)) }
    {
        self.begin_versions(alloc, sorts.len(), xs)?;
        for x in xs {
            let last = last_version(&self.versions, *x as usize);
            self.take_symbol(alloc, store, sorts, *x as usize, last)?;
        }
        Ok(())
    }
}

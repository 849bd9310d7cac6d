ghost use Rattle.std.specs.Prelude.{◌≡◌, ◌<◌, ◌+◌, ◌^◌, [], map, length, get_or, slice_index_or, unwrap_or, IfOk, OnOk};
ghost use Rattle.std.specs.Result.{OkIff};
ghost use Rattle.slang_values.specs.Value.{unit_type};
ghost use Rattle.slang_values.specs.Tree.{name as name_tree};
ghost use Rattle.term_trees.specs.Term.{sort_type};
ghost use Rattle.term_store.specs.Store.{Holds, GainsAmong, subtrees};
ghost use Rattle.leg_rules.specs.Store.{with_symbol, read_version, read_name, term_of_name};
ghost use Rattle.claim_reading.specs.Readable.{IsWithin};
ghost use Rattle.claim_parts.specs.Names.{claim_name};

use crate::NoMemory;
use crate::state::LegState;
use crate::versions::{last_version, number_in, put_number};
use claim_parts::Name;
use std::alloc::{AllocError, Global};
use term_nodes::Node;
use term_store::TermStore;
use term_trees::Sort;

/// A count as a number, where there is one.
pub fn number(count: usize) -> Result<u32, NoMemory>
    ensures { OkIff result (count < 2 ^ 32) count }
{
    u32::try_from(count).map_err(|_| AllocError)
}

/// The number of a symbol.
fn add_symbol(store: &mut TermStore, symbol: u32) -> Result<usize, NoMemory>
    ensures number { IfOk result (λ id. Holds store.new id (name_tree symbol)) }
    ensures gains { GainsAmong store.old store.new (subtrees (name_tree symbol)) }
{
    store.add_node(Node::Symbol(symbol))
}

impl LegState {
    ghost use Rattle.leg_states.specs.State.{state_of, IsOver, lists_of};

    /// The version of the variable takes the next symbol.
    pub(crate) fn take_symbol(
        &mut self,
        alloc: Global,
        store: &mut TermStore,
        sorts: &[Sort],
        x: usize,
        k: usize,
    ) -> Result<usize, NoMemory>
        requires over { IsOver (length sorts.now) store.old self.old }
        requires variable { x < length sorts.now }
        requires version { k < length (get_or (lists_of self.old.versions) x []) }
        ensures state { OnOk result (state_of store.new self.new
            ≡ with_symbol (slice_index_or (map sort_type sorts.now) x unit_type) x k (state_of store.old self.old)) }
        ensures number { IfOk result (λ id. Holds store.new id (name_tree (length self.old.sorts))) }
        ensures over { OnOk result (IsOver (length sorts.now) store.new self.new) }
        ensures gains { GainsAmong store.old store.new (subtrees (name_tree (length self.old.sorts))) }
        ensures count { OnOk result (length self.new.sorts ≡ length self.old.sorts + 1) }
    {
        let symbol = number(self.sorts.len())?;
        let id = add_symbol(store, symbol)?;
        self.sorts.push(sorts[x].copy(alloc)?)?;
        put_number(&mut self.versions, x, k, id);
        Ok(id)
    }

    /// The number of the term of a version. Without a term it takes a symbol.
    fn read_version(
        &mut self,
        alloc: Global,
        store: &mut TermStore,
        sorts: &[Sort],
        x: usize,
        k: usize,
    ) -> Result<usize, NoMemory>
        requires over { IsOver (length sorts.now) store.old self.old }
        requires variable { x < length sorts.now }
        requires version { k < length (get_or (lists_of self.old.versions) x []) }
        ensures state { OnOk result (state_of store.new self.new ≡ read_version (map sort_type sorts.now) x k (state_of store.old self.old)) }
        ensures number { IfOk result (λ id. Holds store.new id
            (unwrap_or ((read_version (map sort_type sorts.now) x k (state_of store.old self.old)).terms x k) (name_tree 0))) }
        ensures over { OnOk result (IsOver (length sorts.now) store.new self.new) }
        ensures gains { GainsAmong store.old store.new
            (subtrees (unwrap_or ((read_version (map sort_type sorts.now) x k (state_of store.old self.old)).terms x k) (name_tree 0))) }
    {
        match number_in(&self.versions, x, k) {
            Some(id) => Ok(id),
            None => self.take_symbol(alloc, store, sorts, x, k),
        }
    }

    /// The symbol of a block.
    fn symbol_of(&self, label: u32) -> u32
        ensures { name_tree result ≡ name_tree ((state_of [] self.now).lets label) }
    {
        self.lets.get(&label).copied().unwrap_or(0)
    }

    /// The number of the term of a name. A version of a variable that has no term yet takes a symbol.
    pub fn read_name(
        &mut self,
        alloc: Global,
        store: &mut TermStore,
        sorts: &[Sort],
        name: Name,
    ) -> Result<usize, NoMemory>
        requires over { IsOver (length sorts.now) store.old self.old }
        requires within { IsWithin (length sorts.now) (claim_name name) }
        ensures state { OnOk result (state_of store.new self.new
            ≡ read_name (map sort_type sorts.now) (state_of store.old self.old) (claim_name name)) }
        ensures number { IfOk result (λ id. Holds store.new id
            (term_of_name (read_name (map sort_type sorts.now) (state_of store.old self.old) (claim_name name)) (claim_name name))) }
        ensures over { OnOk result (IsOver (length sorts.now) store.new self.new) }
        ensures gains { GainsAmong store.old store.new (subtrees
            (term_of_name (read_name (map sort_type sorts.now) (state_of store.old self.old) (claim_name name)) (claim_name name))) }
    {
        match name {
            Name::Variable(x) => {
                let last = last_version(&self.versions, x as usize);
                self.read_version(alloc, store, sorts, x as usize, last)
            }
            Name::OldVariable(x) => {
                let last = last_version(&self.versions, x as usize);
                self.read_version(alloc, store, sorts, x as usize, last.saturating_sub(1))
            }
            Name::LetSymbol(label) => {
                let symbol = self.symbol_of(label);
                add_symbol(store, symbol)
            }
        }
    }
}

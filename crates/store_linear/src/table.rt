ghost use Rattle.std.specs.Prelude.{◌≡◌, ◌<◌, ◌≤◌, length, List, IfOk, OnOk};
ghost use Rattle.term_nodes.specs.declared.node.Node.{Node};
ghost use Rattle.term_store.specs.Store.{tree_at, Grows};
ghost use Rattle.store_entries.specs.Entries.{IsEntryOf, AreEntries};

use crate::NoMemory;
use crate::atoms::entry_of_atom;
use crate::entry::{entry_of_binary, entry_of_literal, entry_of_unary};
use std::alloc::Global;
use store_entries::Entry;
use term_nodes::NodeShape;
use term_store::TermStore;

/// What was found of the first terms of a store, each at its number.
#[derive(Drop)]
pub struct FormTable {
    pub entries: Vec<Entry>,
}

impl FormTable {
    pub fn new(alloc: Global) -> FormTable
        ensures { (store : List Node) → AreEntries store result.entries.items }
    {
        FormTable {
            entries: Vec::new(alloc),
        }
    }

    /// Finds the forms of all terms below the number. What they are made of is added to the store.
    pub fn work_out(
        &mut self,
        alloc: Global,
        store: &mut TermStore,
        count: usize,
    ) -> Result<(), NoMemory>
        requires entries { AreEntries store.old self.old.entries.items }
        requires count { count ≤ length store.old }
        ensures entries { AreEntries store.new self.new.entries.items }
        ensures grows { Grows store.old store.new }
        ensures all { OnOk result (count ≤ length self.new.entries.items) }
    {
        'terms: for id in self.entries.len()..count {
            let entry = entry_of(alloc, store, self.entries.as_slice(), id)?;
            self.entries.push(entry)?;
        }
        Ok(())
    }
}

/// What is found of the term with that number, after those below it.
fn entry_of(
    alloc: Global,
    store: &mut TermStore,
    entries: &[Entry],
    id: usize,
) -> Result<Entry, NoMemory>
    requires entries { AreEntries store.old entries.now }
    requires next { id ≤ length entries.now }
    requires within { id < length store.old }
    ensures entry { IfOk result (IsEntryOf store.new (tree_at store.old id)) }
    ensures grows { Grows store.old store.new }
{
    match store.view(id).shape() {
        NodeShape::Literal(z) => Ok(entry_of_literal(alloc, z)),
        NodeShape::Unary(op, a) => entry_of_unary(alloc, store, entries, op, a),
        NodeShape::Binary(op, a, b) => entry_of_binary(alloc, store, entries, op, a, b),
        NodeShape::Truth(_) | NodeShape::Symbol(_) | NodeShape::Bound(_) => entry_of_atom(
            alloc, store, entries, id,
        ),
        NodeShape::Update(_, _, _) | NodeShape::Quantified(_, _, _, _) => entry_of_atom(
            alloc, store, entries, id,
        ),
        NodeShape::Sequence(_, _) | NodeShape::Record(_, _) => entry_of_atom(
            alloc, store, entries, id,
        ),
    }
}

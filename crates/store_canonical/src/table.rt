ghost use Rattle.std.specs.Prelude.{◌≡◌, ◌<◌, ◌≤◌, length, List, OnOk};
ghost use Rattle.slang_values.specs.Value.{Records};
ghost use Rattle.slang_values.specs.Typing.{NameTypes};
ghost use Rattle.std.specs.Prelude.{ℕ};
ghost use Rattle.term_nodes.specs.declared.node.Node.{Node};
ghost use Rattle.term_sorts.specs.Types.{types_of, record_types};
ghost use Rattle.term_store.specs.Store.{Grows};
ghost use Rattle.store_entries.specs.Entries.{AreEntries};
ghost use Rattle.store_canonical.specs.Canonical.{AreCanonical};

use crate::NoMemory;
use crate::terms::canonical_of;
use sqlite_items::Items;
use std::alloc::Global;
use store_entries::Entry;
use term_store::TermStore;
use term_trees::Sort;

/// The numbers of the canonical trees of the first terms of a store, each at its own number.
#[derive(Drop)]
pub struct CanonicalTable {
    pub ids: Vec<usize>,
}

impl CanonicalTable {
    pub fn new(alloc: Global) -> CanonicalTable
        ensures { (records : Records) (types : NameTypes ℕ) (store : List Node) → AreCanonical records types store result.ids.items }
    {
        CanonicalTable {
            ids: Vec::new(alloc),
        }
    }

    /// Finds the canonical trees of all terms below the number, over symbols of these sorts, and records whose fields have these
    /// sorts. What the store lacks of them is added.
    pub fn work_out(
        &mut self,
        alloc: Global,
        symbols: &[Sort],
        records: &[Items<Sort>],
        store: &mut TermStore,
        entries: &[Entry],
        count: usize,
    ) -> Result<(), NoMemory>
        requires entries { AreEntries store.old entries.now }
        requires canonical { AreCanonical (record_types records.now) (types_of symbols.now) store.old self.old.ids.items }
        requires count { count ≤ length entries.now }
        ensures canonical { AreCanonical (record_types records.now) (types_of symbols.now) store.new self.new.ids.items }
        ensures grows { Grows store.old store.new }
        ensures all { OnOk result (count ≤ length self.new.ids.items) }
    {
        'terms: for id in self.ids.len()..count {
            let number = canonical_of(
                alloc,
                symbols,
                records,
                store,
                entries,
                self.ids.as_slice(),
                id,
            )?;
            self.ids.push(number)?;
        }
        Ok(())
    }
}

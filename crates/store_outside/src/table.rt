ghost use Rattle.std.specs.Prelude.{◌≤◌, ℕ, length, List, OnOk};
ghost use Rattle.slang_values.specs.Value.{Records};
ghost use Rattle.slang_values.specs.Typing.{NameTypes};
ghost use Rattle.term_nodes.specs.declared.node.Node.{Node};
ghost use Rattle.term_sorts.specs.Types.{types_of, record_types};
ghost use Rattle.store_entries.specs.Entries.{AreEntries};
ghost use Rattle.store_outside.specs.Outside.{AreNarrowOutside};

use crate::NoMemory;
use crate::shapes::is_narrow_outside;
use sqlite_items::Items;
use std::alloc::Global;
use store_entries::Entry;
use term_store::TermStore;
use term_trees::Sort;

/// The answers for the first terms of a store, each at its number.
#[derive(Drop)]
pub struct OutsideTable {
    pub narrow: Vec<bool>,
}

impl OutsideTable {
    pub fn new(alloc: Global) -> OutsideTable
        ensures { (records : Records) (types : NameTypes ℕ) (store : List Node) → AreNarrowOutside records types store result.narrow.items }
    {
        OutsideTable {
            narrow: Vec::new(alloc),
        }
    }

    /// Finds the answers for all terms below the number, over symbols of these sorts, and records whose fields have these sorts.
    pub fn work_out(
        &mut self,
        symbols: &[Sort],
        records: &[Items<Sort>],
        store: &TermStore,
        entries: &[Entry],
        count: usize,
    ) -> Result<(), NoMemory>
        requires entries { AreEntries store.now entries.now }
        requires narrow { AreNarrowOutside (record_types records.now) (types_of symbols.now) store.now self.old.narrow.items }
        requires count { count ≤ length entries.now }
        ensures narrow { AreNarrowOutside (record_types records.now) (types_of symbols.now) store.now self.new.narrow.items }
        ensures all { OnOk result (count ≤ length self.new.narrow.items) }
    {
        'terms: for id in self.narrow.len()..count {
            let narrow = is_narrow_outside(
                symbols,
                records,
                store,
                entries,
                self.narrow.as_slice(),
                id,
            );
            self.narrow.push(narrow)?;
        }
        Ok(())
    }
}

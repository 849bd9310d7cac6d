ghost use Rattle.std.specs.Prelude.{◌≡◌, ◌<◌, ◌≤◌, ℕ, length, List, IfOk, OnOk};
ghost use Rattle.slang_values.specs.Value.{Records};
ghost use Rattle.slang_values.specs.Typing.{NameTypes};
ghost use Rattle.closing.specs.Literals as literals;
ghost use Rattle.term_nodes.specs.declared.node.Node.{Node};
ghost use Rattle.term_sorts.specs.Types.{types_of, record_types};
ghost use Rattle.term_store.specs.Store.{tree_at, Grows};
ghost use Rattle.store_leaves.specs.Workings.{AreWorkings, HasWorkedOut};

use crate::NoMemory;
use sqlite_items::Items;
use std::alloc::Global;
use store_canonical::CanonicalTable;
use store_linear::FormTable;
use store_outside::OutsideTable;
use term_store::TermStore;
use term_trees::Sort;

/// What was worked out of the first terms of a store, each at its number: linear forms, canonical trees, and whether the numbers
/// outside the bodies of quantifiers have forms.
#[derive(Drop)]
pub struct Workings {
    pub forms: FormTable,
    pub canonical: CanonicalTable,
    pub outside: OutsideTable,
}

impl Workings {
    pub fn new(alloc: Global) -> Workings
        ensures { (records : Records) (types : NameTypes ℕ) (store : List Node) → AreWorkings records types store result }
    {
        Workings {
            forms: FormTable::new(alloc),
            canonical: CanonicalTable::new(alloc),
            outside: OutsideTable::new(alloc),
        }
    }

    /// Finds the forms and the canonical trees of all terms below the number. What the store lacks of them is added.
    pub(crate) fn work_out(
        &mut self,
        alloc: Global,
        symbols: &[Sort],
        records: &[Items<Sort>],
        store: &mut TermStore,
        count: usize,
    ) -> Result<(), NoMemory>
        requires work { AreWorkings (record_types records.now) (types_of symbols.now) store.old self.old }
        requires count { count ≤ length store.old }
        ensures all { OnOk result (HasWorkedOut self.new count) }
        ensures grows { Grows store.old store.new }
        ensures work { AreWorkings (record_types records.now) (types_of symbols.now) store.new self.new }
    {
        self.forms.work_out(alloc, store, count)?;
        let entries = self.forms.entries.as_slice();
        self.canonical
            .work_out(alloc, symbols, records, store, entries, count)
    }
}

/// Whether each number in the term that stands outside the bodies of quantifiers has a form, as has each part of it.
pub fn is_narrow_outside(
    alloc: Global,
    symbols: &[Sort],
    records: &[Items<Sort>],
    store: &mut TermStore,
    work: &mut Workings,
    id: usize,
) -> Result<bool, NoMemory>
    requires within { id < length store.old }
    requires work { AreWorkings (record_types records.now) (types_of symbols.now) store.old work.old }
    ensures narrow { IfOk result (λ b. b ≡ literals.is_narrow_outside (record_types records.now) (types_of symbols.now) (tree_at store.old id)) }
    ensures grows { Grows store.old store.new }
    ensures work { AreWorkings (record_types records.now) (types_of symbols.now) store.new work.new }
{
    let _count = store.len();
    work.forms.work_out(alloc, store, id + 1)?;
    let entries = work.forms.entries.as_slice();
    work.outside
        .work_out(symbols, records, store, entries, id + 1)?;
    Ok(work.outside.narrow[id])
}
